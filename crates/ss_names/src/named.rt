//! What has a name.

ghost use Rattle.std.specs.Prelude.{◌≡◌, ℕ, List};
ghost use Rattle.ss_names.specs.Names.{column_name};

use ss_value::Column;

/// What has a name, or is one.
pub trait Named {
    ghost name: { Self → List ℕ };

    /// Its name, at no cost.
    fn name(&self) -> &[u8]
        ensures { result.now ≡ name self.now };

    /// Its name as a `str`. Linear in it.
    fn text(&self) -> &str
        ensures { result.now ≡ name self.now };
}

impl Named for Column {
    ghost name = { column_name };

    fn name(&self) -> &[u8] {
        self.name.as_bytes()
    }

    fn text(&self) -> &str {
        self.name.as_str()
    }
}

//! What is in a bay.

/// A value that belongs to one bay: that of its tag.
///
/// A bay's number is all that this crate knows of what is in it. The tag is for contracts alone, and
/// no method, because no call runs it.
pub trait Tagged: Drop {
    ghost use Rattle.std.specs.Prelude.{ℕ};

    ghost tag: { Self → ℕ };
}

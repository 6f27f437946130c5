//! The database on which a list begins.

use std::marker::Brand;

/// The database on which a list begins, for contracts alone.
///
/// No code holds it: it is what the entries before the list had led to, and the store's own database has gone on since. A
/// caller picks it once for each list, where it names [`Brand`].
pub trait Origin {
    ghost use Rattle.ss_model.specs.Database.{Database};

    ghost opening: { Database };
}

impl Origin for Brand {
    ghost use Rattle.ss_model.specs.Lives.{no_database};

    ghost opening = { no_database };
}

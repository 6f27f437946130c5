//! Equal outcomes.

ghost use Rattle.std.specs.Prelude.{◌≡◌, ◌↔◌, IsTrue};

use ss_model::Outcome;
use ss_value::Rows;

/// Whether two lists of rows are equal. Linear.
fn same_rows(a: &Rows, b: &Rows) -> bool
    ensures { IsTrue result ↔ (a.now ≡ b.now) }
{
    a == b
}

/// Whether two outcomes are equal. Linear in the rows of a reply.
pub fn same_outcome(a: &Outcome, b: &Outcome) -> bool
    ensures { IsTrue result ↔ (a.now ≡ b.now) }
{
    match (a, b) {
        (Outcome::Done(a), Outcome::Done(b)) => same_rows(a, b),
        (Outcome::Aborted(a), Outcome::Aborted(b)) => a == b,
        (Outcome::Duplicate(a), Outcome::Duplicate(b)) => a == b,
        (Outcome::Gap(a), Outcome::Gap(b)) => a == b,
        (_, _) => false,
    }
}

//! The limit of batches and replies.

ghost use Rattle.std.specs.Prelude.{◌≡◌};
ghost use Rattle.ss_model.specs.Bodies.{exceeds_row_limit};

use ss_value::Rows;

/// The most rows of a batch, and of a reply.
pub const ROW_LIMIT: usize = 1_024;

/// Whether rows, with more behind them, are over the limit.
pub fn exceeds_row_limit(rows: &Rows, more: &Rows) -> bool
    ensures { result ≡ exceeds_row_limit rows.now more.now }
{
    // A sum that saturates is over the limit too.
    rows.len().saturating_add(more.len()) > ROW_LIMIT
}

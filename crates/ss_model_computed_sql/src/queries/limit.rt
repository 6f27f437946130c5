//! The last phase: LIMIT.

ghost use Rattle.std.specs.Prelude.{◌≡◌};
ghost use Rattle.ss_model.specs.Queries.{take_limit};

use ss_value::{Rows, Seq};

/// The first rows, as many as the limit, and all where there is none. Drops the others, and takes no memory.
pub fn take_limit(limit: Option<u64>, rows: Rows) -> Rows
    ensures { result ≡ take_limit limit rows }
{
    match limit {
        None => rows,
        Some(count) => {
            let mut rows = rows.into_vec();
            rows.truncate(count as usize);
            Seq::from_vec(rows)
        }
    }
}

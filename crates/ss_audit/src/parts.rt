//! The parts of a report.

ghost use Rattle.std.specs.Prelude.{◌≡◌, IfOk, IfErr, Ok};
ghost use Rattle.ss_model.specs.Database.{empty_database};
ghost use Rattle.ss_replay.specs.Replaying.{IsOn};
ghost use Rattle.ss_audit_laws.specs.Shape.{shape};
ghost use Rattle.ss_audit.specs.Breaks.{BreaksAs};
ghost use Rattle.ss_audit.specs.Lent.{lent_parts};

use crate::broken::Broken;
use crate::shape::{behind_replies, behind_tables, entry_count, the_end};
use ss_lines::Line;
use ss_model::{Catalog, Request};
use ss_report::by_name;
use ss_shard::Database;
use std::alloc::Global;

/// The parts of a report, lent.
#[derive(Clone, Copy, Drop)]
pub(crate) struct Parts<'a> {
    pub replies: &'a [Line],
    pub entries: &'a [Line],
    pub tables: &'a [Line],
    pub last: &'a Line,
}

/// The parts of a report for these requests, or the first line that stands where another had to stand. The database is the one
/// before all executions. Linear in the lines' bytes, and costs a search by name for each table.
pub(crate) fn report_parts<'a>(
    alloc: Global,
    catalog: &Catalog,
    database: &Database,
    requests: &[Request],
    lines: &'a [Line],
    end: u64,
) -> Result<Parts<'a>, Broken>
    requires { IsOn catalog.now database.now (empty_database catalog.now) }
    ensures ok { IfOk result (λ parts. shape catalog.now requests.now lines.now end ≡ Ok (lent_parts parts)) }
    ensures broken { IfErr result (BreaksAs (shape catalog.now requests.now lines.now end)) }
{
    let rest = behind_replies(alloc, requests, lines, end)?;
    let count = entry_count(alloc, rest)?;
    let (entries, behind) = rest.split_at(count);
    let named = by_name(alloc, catalog.tables.as_slice(), database.whole.tables())?;
    let lasts = behind_tables(alloc, &named, behind, end)?;
    let last = the_end(alloc, lasts, end)?;
    let asked = requests.len();
    let (replies, _) = lines.split_at(asked);
    let long = behind.len();
    let before_last = long.saturating_sub(1);
    let (tables, _) = behind.split_at(before_last);
    Ok(Parts {
        replies,
        entries,
        tables,
        last,
    })
}

//! The fourth and the fifth check: the tables behind the entries, and the end.

ghost use Rattle.std.specs.Prelude.{◌≡◌, IfOk, IfErr, Ok, OnOk, map};
ghost use Rattle.ss_model.specs.Accepted.{Accepted};
ghost use Rattle.ss_model.specs.Database.{Database as Model};
ghost use Rattle.ss_model.specs.ReportLines.{database_lines, row_line, table_lines};
ghost use Rattle.ss_shard.specs.Contents.{rows_by_key};
ghost use Rattle.ss_shard.specs.Lent.{rows_behind};
ghost use Rattle.ss_replay.specs.Replaying.{IsOn};
ghost use Rattle.ss_audit_laws.specs.Checks.{all_say, ends_well};
ghost use Rattle.ss_audit.specs.Breaks.{BreaksAs};
ghost use Rattle.ss_audit.specs.Saying.{LeavesBehind, BreaksWithin};

use crate::broken::Broken;
use crate::says::{behind_said, nothing_left, says};
use ss_lines::Line;
use ss_model::{Catalog, TableDef};
use ss_report::{by_name, done_json, table_json, table_row_json};
use ss_sched::next_settled;
use ss_shard::{Database, rows_in_order};
use ss_table::Table;
use ss_value::Row;
use std::alloc::Global;

/// The lines behind those of these rows of a table. Linear in the rows and in those lines.
fn behind_rows_said<'a>(
    alloc: Global,
    name: &str,
    rows: &[&Row],
    lines: &'a [Line],
    end: u64,
) -> Result<&'a [Line], Broken>
    ensures ok { IfOk result (λ rest. LeavesBehind end (map (row_line name.now) (rows_behind rows.now)) lines.now rest.now) }
    ensures broken { IfErr result (BreaksWithin end (map (row_line name.now) (rows_behind rows.now)) lines.now) }
{
    let mut rest = lines;
    for row in rows {
        let line = table_row_json(alloc, name, row.as_slice())?;
        let behind = behind_said(alloc, &line, rest, end)?;
        rest = behind;
    }
    Ok(rest)
}

/// The lines behind those of a table. Linear in its rows and in those lines, with one reference for each row.
fn behind_table_said<'a>(
    alloc: Global,
    def: &TableDef,
    table: &Table,
    lines: &'a [Line],
    end: u64,
) -> Result<&'a [Line], Broken>
    ensures ok { IfOk result (λ rest. LeavesBehind end (table_lines def.now (rows_by_key table.now.live)) lines.now rest.now) }
    ensures broken { IfErr result (BreaksWithin end (table_lines def.now (rows_by_key table.now.live)) lines.now) }
{
    let rows = rows_in_order(alloc, table)?;
    let name = def.name.as_str();
    let head = table_json(alloc, name, rows.len() as u64)?;
    let behind = behind_said(alloc, &head, lines, end)?;
    let rest = behind_rows_said(alloc, name, rows.as_slice(), behind, end)?;
    Ok(rest)
}

/// Checks that these lines are those of the database's tables, by the bytes of their names.
///
/// Linear in the lines and in the rows up to the first difference. One table at a time its rows are lent, and none is copied.
pub(crate) fn check_tables(
    alloc: Global,
    catalog: &Catalog,
    database: &Database,
    lines: &[Line],
    end: u64,
) -> Result<(), Broken>
    requires accepted { Accepted catalog.now }
    requires on { (d : Model) × IsOn catalog.now database.now d }
    ensures ok { OnOk result ((d : Model) → IsOn catalog.now database.now d → all_say end (database_lines catalog.now d) lines.now ≡ Ok tt) }
    ensures broken { IfErr result (λ e. (d : Model) → IsOn catalog.now database.now d → BreaksAs (all_say end (database_lines catalog.now d) lines.now) e) }
{
    let named = by_name(alloc, catalog.tables.as_slice(), database.whole.tables())?;
    let mut rest = lines;
    for defined in named.values() {
        let behind = behind_table_said(alloc, defined.def, defined.table, rest, end)?;
        rest = behind;
    }
    nothing_left(rest)
}

/// Checks that the last line counts the entries, and that nothing is left to run.
pub(crate) fn check_end(
    alloc: Global,
    catalog: &Catalog,
    database: &Database,
    entries: usize,
    last: &Line,
) -> Result<(), Broken>
    requires accepted { Accepted catalog.now }
    requires on { (d : Model) × IsOn catalog.now database.now d }
    ensures ok { OnOk result ((d : Model) → IsOn catalog.now database.now d → ends_well catalog.now d entries last.now ≡ Ok tt) }
    ensures broken { IfErr result (λ e. (d : Model) → IsOn catalog.now database.now d → BreaksAs (ends_well catalog.now d entries last.now) e) }
{
    let done = done_json(alloc, entries as u64)?;
    if !says(alloc, &done, last)? {
        return Err(Broken::Line(last.number));
    }
    match next_settled(catalog, database.whole.cursors(), &database.streams) {
        Some(_) => Err(Broken::Line(last.number)),
        None => Ok(()),
    }
}

//! The third check: entries, run one after another.

ghost use Rattle.std.specs.Prelude.{◌≡◌, ◌<◌, ◌^◌, ℕ, IfOk, IfErr, Ok, OnOk, Some};
ghost use Rattle.serde_json.specs.View.{view};
ghost use Rattle.ss_lines.specs.declared.line.Line.{Line as LineValue};
ghost use Rattle.ss_model.specs.Accepted.{Accepted};
ghost use Rattle.ss_model.specs.Database.{Database as Model, empty_database};
ghost use Rattle.ss_shard.specs.Shards.{IsCommitted};
ghost use Rattle.ss_replay.specs.Replaying.{IsOn, IsOnAt};
ghost use Rattle.ss_report_lines.specs.Said.{said};
ghost use Rattle.ss_model.specs.ReportLines.{entry_line};
ghost use Rattle.ss_audit_laws.specs.Checks.{entry_at, replayed, says, turns_behind};
ghost use Rattle.ss_audit.specs.Asked.{FindsAsked};
ghost use Rattle.ss_audit.specs.Breaks.{BreaksAs};
ghost use Rattle.ss_audit.specs.Clients.{number_of};
ghost use Rattle.ss_audit.specs.Running.{HasOutcome, HasRun, IsMeant, NoEntryAs, RanAs};

use crate::asked::{Asked, asked_by, meant};
use crate::broken::Broken;
use crate::per_client::{PerClient, next_of};
use crate::says::says;
use serde_json::Value as Json;
use ss_lines::Line;
use ss_model::{Catalog, Entry, Listed, Outcome};
use ss_proc::Runner;
use ss_replay::{has_value, replay_entry};
use ss_report::entry_json;
use ss_report_lines::{LineKind, kind_of, said};
use ss_shard::Database;
use ss_value::NoMemory;
use std::alloc::Global;

/// No execution stands at this place.
const LAST_PLACE: u64 = 1 << 60;

/// What stands behind the entries so far: the database, and of each client the least index that its next entry may have.
#[derive(Drop)]
pub(crate) struct Behind {
    pub turns: PerClient,
    pub database: Database,
}

/// Notes that the entry of a line of this kind has run: its client's next entry has a greater index.
fn note_turn(turns: &mut PerClient, kind: Option<LineKind>) -> Result<(), NoMemory>
    ensures { OnOk result (number_of turns.new ≡ turns_behind (number_of turns.old) kind) }
{
    let Some((client, index)) = asked_by(kind) else {
        return Ok(());
    };
    let next = next_of(index)?;
    turns.set(client, next);
    Ok(())
}

/// Runs an entry on a database, if it has a value there. The database is then the one behind it, and else as it was.
///
/// Costs its execution and its commit. Nothing is said of the database that out of memory leaves.
fn run_entry<N: Runner>(
    alloc: Global,
    catalog: &Catalog,
    runner: &N,
    database: &mut Database,
    entry: &Entry,
) -> Result<Option<Outcome>, NoMemory>
    requires accepted { Accepted catalog.now }
    requires committed { IsCommitted catalog.now database.old.whole }
    requires on { (d : Model) × (place : ℕ) × (place < 2 ^ 60) × IsOnAt catalog.now database.old place d }
    ensures committed { OnOk result (IsCommitted catalog.now database.new.whole) }
    ensures outcome { IfOk result (λ o. (d : Model) (place : ℕ) → place < 2 ^ 60 → IsOnAt catalog.now database.old place d
        → HasOutcome catalog.now d place entry.now database.new o) }
{
    if !has_value(catalog, database, entry) {
        return Ok(None);
    }
    let outcome = replay_entry(alloc, catalog, runner, database, entry)?;
    Ok(Some(outcome))
}

/// The entry that the value of a line is about, with the line's kind. Linear in what the entry carries, which is copied, and in the
/// procedures.
fn said_entry(
    alloc: Global,
    catalog: &Catalog,
    asked: &Asked,
    turns: &PerClient,
    value: &Json,
) -> Result<Option<(Entry, Option<LineKind>)>, NoMemory>
    requires accepted { Accepted catalog.now }
    requires found { FindsAsked asked.now }
    ensures { IfOk result (λ m. (line : LineValue) → said line.bytes ≡ Some (view value.now)
        → IsMeant catalog.now asked.now.requests.now (number_of turns.now) line m) }
{
    let about = meant(alloc, catalog, asked, turns, value)?;
    match about {
        Some(entry) => Ok(Some((entry, kind_of(value)))),
        None => Ok(None),
    }
}

/// The entry that a line is about, with the line's kind. Linear in the line and in what the entry carries, which is copied, and
/// in the procedures.
fn line_entry(
    alloc: Global,
    catalog: &Catalog,
    asked: &Asked,
    turns: &PerClient,
    line: &Line,
) -> Result<Option<(Entry, Option<LineKind>)>, NoMemory>
    requires accepted { Accepted catalog.now }
    requires found { FindsAsked asked.now }
    ensures { IfOk result (IsMeant catalog.now asked.now.requests.now (number_of turns.now) line.now) }
{
    let told = said(alloc, line.bytes.as_slice())?;
    match told {
        Some(value) => said_entry(alloc, catalog, asked, turns, &value),
        None => Ok(None),
    }
}

/// Whether a line is that of an entry at this place, with its outcome. Linear in both.
fn is_line_of(
    alloc: Global,
    catalog: &Catalog,
    place: u64,
    listed: &Listed,
    line: &Line,
) -> Result<bool, NoMemory>
    ensures { IfOk result (λ is. is ≡ says (entry_line catalog.now place listed.now.outcome listed.now.entry) line.now) }
{
    let printed = entry_json(alloc, catalog, place, listed)?;
    says(alloc, &printed, line)
}

/// Runs an entry, and answers whether a line says what comes of it at this place. Nothing is said of the database where it doesn't.
///
/// Costs what it costs to run and to commit, and is linear in the line and in the outcome.
fn runs_as<N: Runner>(
    alloc: Global,
    catalog: &Catalog,
    runner: &N,
    database: &mut Database,
    entry: Entry,
    place: u64,
    line: &Line,
) -> Result<bool, NoMemory>
    requires accepted { Accepted catalog.now }
    requires few { place < 2 ^ 60 }
    requires committed { IsCommitted catalog.now database.old.whole }
    requires on { (d : Model) × IsOnAt catalog.now database.old place d }
    ensures committed { OnOk result (IsCommitted catalog.now database.new.whole) }
    ensures ran { IfOk result (λ is. (d : Model) → IsOnAt catalog.now database.old place d
        → RanAs catalog.now d place entry line.now database.new is) }
{
    let ran = run_entry(alloc, catalog, runner, database, &entry)?;
    match ran {
        Some(outcome) => {
            let listed = Listed { entry, outcome };
            is_line_of(alloc, catalog, place, &listed, line)
        }
        None => Ok(false),
    }
}

/// Runs the entry that a line is about, and checks that the line says what comes of it at this place.
///
/// Linear in the line and in what the entry carries, and costs what it costs to run and to commit. Nothing is said of what is left
/// where the line breaks the check.
fn run_line<N: Runner>(
    alloc: Global,
    catalog: &Catalog,
    asked: &Asked,
    runner: &N,
    behind: &mut Behind,
    place: u64,
    line: &Line,
) -> Result<(), Broken>
    requires accepted { Accepted catalog.now }
    requires found { FindsAsked asked.now }
    requires few { place < 2 ^ 60 }
    requires committed { IsCommitted catalog.now behind.old.database.whole }
    requires on { (d : Model) × IsOnAt catalog.now behind.old.database place d }
    ensures committed { OnOk result (IsCommitted catalog.now behind.new.database.whole) }
    ensures ran { OnOk result ((d : Model) → IsOnAt catalog.now behind.old.database place d
        → HasRun catalog.now asked.now.requests.now d place line.now behind.old behind.new) }
    ensures broken { IfErr result (λ e. (d : Model) → IsOnAt catalog.now behind.old.database place d
        → NoEntryAs (entry_at catalog.now asked.now.requests.now (number_of behind.old.turns) d place line.now) line.now.number e) }
{
    let about = line_entry(alloc, catalog, asked, &behind.turns, line)?;
    let Some((entry, kind)) = about else {
        return Err(Broken::Line(line.number));
    };
    let told = runs_as(
        alloc,
        catalog,
        runner,
        &mut behind.database,
        entry,
        place,
        line,
    )?;
    if !told {
        return Err(Broken::Line(line.number));
    }
    note_turn(&mut behind.turns, kind)?;
    Ok(())
}

/// Runs the entries of these lines one after another on the empty database, checks that each line says what comes of its entry, and
/// gives the database behind them.
///
/// Linear in the lines, and costs what each entry costs to run and to commit. Of one entry at a time the arguments or rows are copied.
pub(crate) fn replay_lines<N: Runner>(
    alloc: Global,
    catalog: &Catalog,
    asked: &Asked,
    runner: &N,
    database: Database,
    lines: &[Line],
) -> Result<Database, Broken>
    requires accepted { Accepted catalog.now }
    requires found { FindsAsked asked.now }
    requires committed { IsCommitted catalog.now database.whole }
    requires opening { IsOnAt catalog.now database 0 (empty_database catalog.now) }
    ensures ok { IfOk result (λ last. (d : Model) × IsOn catalog.now last d
        × (replayed catalog.now asked.now.requests.now (λ _. 0) (empty_database catalog.now) 0 lines.now ≡ Ok d)) }
    ensures broken { IfErr result (BreaksAs (replayed catalog.now asked.now.requests.now (λ _. 0) (empty_database catalog.now) 0 lines.now)) }
{
    // No memory holds so many lines, and each of their places is one.
    if lines.len() as u64 >= LAST_PLACE {
        return Err(Broken::NoMemory);
    }
    let turns = PerClient::zeros();
    let mut behind = Behind { turns, database };
    for (at, line) in lines.iter().enumerate() {
        run_line(alloc, catalog, asked, runner, &mut behind, at as u64, line)?;
    }
    let Behind { turns: _, database } = behind;
    Ok(database)
}

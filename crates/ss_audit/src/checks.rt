//! All checks, one behind the other.

ghost use Rattle.std.specs.Prelude.{◌≡◌, ℕ, List, [], IfOk, length};
ghost use Rattle.ss_model.specs.declared.entry.Listed.{Listed};
ghost use Rattle.ss_model.specs.Accepted.{Accepted};
ghost use Rattle.ss_model.specs.Database.{Database as Model, empty_database};
ghost use Rattle.ss_shard.specs.Shards.{IsCommitted};
ghost use Rattle.ss_replay.specs.Replaying.{IsOn, IsOnAt};
ghost use Rattle.ss_audit_laws.specs.Checks.{audited};
ghost use Rattle.ss_audit_laws.specs.Valid.{bytes_of, AreLines, IsReadable, IsValid};
ghost use Rattle.ss_audit.specs.declared.verdict.Verdict.TheVariants.{Yes};
ghost use Rattle.ss_audit.specs.Breaks.{IsNo, behind_parts, behind_replay, behind_replies, behind_tables, verdict_of};
ghost use Rattle.ss_audit.specs.Lent.{lent_parts};
ghost use Rattle.ss_audit.specs.Positions.{placed_requests};

use crate::asked::{Asked, placed_requests};
use crate::broken::Broken;
use crate::entries::replay_lines;
use crate::parts::{Parts, report_parts};
use crate::positions::{Placed, first_positions};
use crate::replies::check_replies;
use crate::tables::{check_end, check_tables};
use crate::verdict::Verdict;
use ss_audit_laws::{right_is_valid, valid_is_right};
use ss_lines::Line;
use ss_model::{Catalog, Request};
use ss_proc::PlainRunner;
use ss_shard::{Database, opening};
use ss_value::NoMemory;
use std::alloc::Global;

/// That a line breaks the check of this number.
fn no(check: u8, broken: Broken) -> Result<Verdict, NoMemory>
    ensures { IfOk result (IsNo check broken) }
{
    match broken {
        Broken::NoMemory => Err(NoMemory),
        Broken::Line(line) => Ok(Verdict::No { check, line }),
    }
}

/// The fifth check, on the database behind the entries.
fn check_last(
    alloc: Global,
    catalog: &Catalog,
    database: &Database,
    parts: Parts,
) -> Result<Verdict, NoMemory>
    requires accepted { Accepted catalog.now }
    requires on { (d : Model) × IsOn catalog.now database.now d }
    ensures { IfOk result (λ v. (d : Model) → IsOn catalog.now database.now d → v ≡ verdict_of (behind_tables catalog.now (lent_parts parts.entry) d)) }
{
    let entries = parts.entries.len();
    match check_end(alloc, catalog, database, entries, parts.last) {
        Ok(()) => Ok(Verdict::Yes {
            count: entries as u64,
        }),
        Err(broken) => no(5, broken),
    }
}

/// The checks from the fourth on, on the database behind the entries.
fn check_database(
    alloc: Global,
    catalog: &Catalog,
    database: &Database,
    parts: Parts,
    end: u64,
) -> Result<Verdict, NoMemory>
    requires accepted { Accepted catalog.now }
    requires on { (d : Model) × IsOn catalog.now database.now d }
    ensures { IfOk result (λ v. (d : Model) → IsOn catalog.now database.now d → v ≡ verdict_of (behind_replay catalog.now (lent_parts parts.entry) end d)) }
{
    match check_tables(alloc, catalog, database, parts.tables, end) {
        Ok(()) => check_last(alloc, catalog, database, parts),
        Err(broken) => no(4, broken),
    }
}

/// The checks from the third on. The requests have their indices beside them, and the database is the one before all executions.
fn check_entries(
    alloc: Global,
    catalog: &Catalog,
    requests: &[Request],
    placed: &[Placed],
    database: Database,
    parts: Parts,
    end: u64,
) -> Result<Verdict, NoMemory>
    requires accepted { Accepted catalog.now }
    requires placed { placed.now ≡ placed_requests [] requests.now }
    requires committed { IsCommitted catalog.now database.whole }
    requires opening { IsOnAt catalog.now database 0 (empty_database catalog.now) }
    ensures { IfOk result (λ v. v ≡ verdict_of (behind_replies catalog.now requests.now (lent_parts parts.entry) end)) }
{
    let first = first_positions(alloc, placed)?;
    let asked = Asked { requests, first };
    match replay_lines(
        alloc,
        catalog,
        &asked,
        &PlainRunner,
        database,
        parts.entries,
    ) {
        Ok(last) => check_database(alloc, catalog, &last, parts, end),
        Err(broken) => no(3, broken),
    }
}

/// The checks from the second on. The database is the one before all executions.
fn check_parts(
    alloc: Global,
    catalog: &Catalog,
    requests: &[Request],
    database: Database,
    parts: Parts,
    end: u64,
) -> Result<Verdict, NoMemory>
    requires accepted { Accepted catalog.now }
    requires committed { IsCommitted catalog.now database.whole }
    requires opening { IsOnAt catalog.now database 0 (empty_database catalog.now) }
    ensures { IfOk result (λ v. v ≡ verdict_of (behind_parts catalog.now requests.now (lent_parts parts.entry) end)) }
{
    let placed = placed_requests(alloc, requests)?;
    let asked = placed.as_slice();
    match check_replies(alloc, requests, asked, parts.replies, parts.entries, end) {
        Ok(()) => check_entries(alloc, catalog, requests, asked, database, parts, end),
        Err(broken) => no(2, broken),
    }
}

/// All checks, in their order.
fn all_checks(
    alloc: Global,
    catalog: &Catalog,
    requests: &[Request],
    report: &[Line],
    end: u64,
) -> Result<Verdict, NoMemory>
    requires { Accepted catalog.now }
    ensures { IfOk result (λ v. v ≡ verdict_of (audited catalog.now requests.now report.now end)) }
{
    let database = opening(alloc, catalog, 1)?;
    match report_parts(alloc, catalog, &database, requests, report, end) {
        Ok(parts) => check_parts(alloc, catalog, requests, database, parts, end),
        Err(broken) => no(1, broken),
    }
}

/// Whether these lines are the report of a run of these requests on an empty disk: yes with the number of its entries, or the
/// least check that a line breaks, with the first such line. A line that is missing is told as `end`, the number that a line
/// behind the last one would have.
///
/// The report that is right is the one whose list replays from the empty database, has its orders, and leaves nothing to run.
/// Errs where there is no memory, which says nothing of the lines.
///
/// Costs one replay of the entries. Reads each line twice at most, and those of clients' entries three times, and prints each at
/// most once, those of clients' entries twice; costs a search by client and index for each request and for each entry. Takes
/// memory for the tables, three numbers for each request and for each client's entry, and for one line at a time.
pub fn audit(
    alloc: Global,
    catalog: &Catalog,
    requests: &[Request],
    report: &[Line],
    end: u64,
) -> Result<Verdict, NoMemory>
    requires { Accepted catalog.now }
    ensures checks { IfOk result (λ v. v ≡ verdict_of (audited catalog.now requests.now report.now end)) }
    ensures right { IfOk result (λ v. (n : ℕ) → v ≡ Yes n
        → (list : List Listed) × IsValid catalog.now requests.now (bytes_of report.now) list × (length list ≡ n)) }
    ensures valid { (list : List Listed) → AreLines report.now → (is : IsValid catalog.now requests.now (bytes_of report.now) list)
        → IsReadable catalog.now requests.now (is.report).answers list → IfOk result (λ v. v ≡ Yes (length list)) }
{
    // Do nothing: they state the laws by which what the checks find is whether the report is right.
    right_is_valid();
    valid_is_right();
    all_checks(alloc, catalog, requests, report, end)
}

//! Two threads on one log.

ghost use Rattle.std.specs.Prelude.{◌≡◌, ◌<◌, ◌≤◌, [], ◌∷◌, length, IfSome};
ghost use Rattle.ss_model.specs.Database.{empty_database};
ghost use Rattle.ss_model.specs.Replays.{Replays};
ghost use Rattle.ss_model.specs.Orders.{Orders};
ghost use Rattle.ss_stream.specs.OfDatabase.{AreStreamsOf};
ghost use Rattle.ss_commitlog.specs.declared.role.Role.TheVariants.{Part, Client, Disk};
ghost use Rattle.ss_commitlog.specs.Rule.{numbered};
ghost use Rattle.ss_commitlog.specs.Tokens.{known, at_opening};
ghost use Rattle.ss_commitlog_tests.specs.Workflow.{workflow};
ghost use Rattle.ss_commitlog_tests.specs.Lives.{BeginsAt, IsTestLife, pair_of};

use super::catalog::catalog;
use super::clients::{call_and_post, push_and_step};
use ss_commitlog::{Blank, CommitLog, Marks, NewLog, Note, Opening};
use ss_model::{Catalog, Life, Listed};
use ss_stream::{Streams, empty_streams};
use ss_value::Seq;
use std::alloc::Global;
use std::marker::Brand;
use std::mem::swap;
use std::sync::Wait;
use std::test::*;
use std::thread::{Threads, join};

/// What a run leaves: its list, and where the push, its step and the call stand in it.
#[derive(Drop)]
struct Run {
    list: Seq<Listed>,
    push: u64,
    step: u64,
    call: u64,
}

/// Closes a log, where both threads did what they had to.
fn closed<I: Life>(
    alloc: Global,
    log: CommitLog<I>,
    pushed: Option<(u64, u64)>,
    called: Option<(Note<I>, u64)>,
) -> Option<Run>
    requires { IfSome called (λ r. r.0.role ≡ Disk) }
    ensures { IfSome result (λ r. Replays I.catalog I.opening r.list × Orders I.catalog I.opening r.list) }
{
    let Some((note, call)) = called else {
        return None;
    };
    let (list, _streams) = log.close(Seq::new(alloc), note);
    let (push, step) = pushed?;
    Some(Run {
        list,
        push,
        step,
        call,
    })
}

/// Both threads at the same time, each with the marks of its own partition and client.
fn both<I: Life + Send + Sync, R: Threads + Wait + Sync>(
    rt: &R,
    alloc: Global,
    log: CommitLog<I>,
    zero: Marks<I>,
    one: Marks<I>,
    note: Note<I>,
    first: u64,
) -> Option<Run>
    requires life { IsTestLife I.catalog I.opening I.parts I.clients }
    requires zero { zero ≡ pair_of 0 I.first }
    requires one { one ≡ pair_of 1 I.first }
    requires note { note ≡ known Disk [] I.first 0 }
    requires first { (first ≡ I.first) × (first ≤ 100) }
    ensures { IfSome result (λ r. Replays I.catalog I.opening r.list × Orders I.catalog I.opening r.list) }
{
    let shared = &log;
    let (pushed, called) = join(
        rt,
        move || -> Option<(u64, u64)>
            requires { IsTestLife I.catalog I.opening I.parts I.clients × (zero ≡ pair_of 0 I.first) }
        { push_and_step(rt, alloc, shared, zero, first) },
        move || -> Option<(Note<I>, u64)>
            requires { IsTestLife I.catalog I.opening I.parts I.clients × BeginsAt I.first one note first }
            ensures { IfSome result (λ r. r.0.role ≡ Disk) }
        { call_and_post(rt, alloc, shared, one, note, first) },
    );
    closed(alloc, log, pushed, called)
}

/// The marks of each number, of the marks of two partitions and those of two clients: the second one of the partitions and the
/// first one of the clients change places.
fn by_number<I: Life>(mut parts: Marks<I>, mut clients: Marks<I>) -> (Marks<I>, Marks<I>)
    requires two { (I.parts ≡ 2) × (I.clients ≡ 2) }
    requires there { (1 < length parts) × (0 < length clients) }
    requires parts { parts ≡ at_opening I.first (numbered Part 0 I.parts []) }
    requires clients { clients ≡ at_opening I.first (numbered Client 0 I.clients []) }
    ensures zero { result.0 ≡ pair_of 0 I.first }
    ensures one { result.1 ≡ pair_of 1 I.first }
{
    let Some(part) = parts.get_mut(1) else {
        unreachable!();
    };
    let Some(client) = clients.get_mut(0) else {
        unreachable!();
    };
    swap(part, client);
    (parts, clients)
}

/// Lets both threads run on a log that was just opened.
fn run_on<I: Life + Send + Sync, R: Threads + Wait + Sync>(
    rt: &R,
    alloc: Global,
    opened: NewLog<I>,
    first: u64,
) -> Option<Run>
    requires life { IsTestLife I.catalog I.opening I.parts I.clients }
    requires parts { opened.parts ≡ at_opening I.first (numbered Part 0 I.parts []) }
    requires clients { opened.clients ≡ at_opening I.first (numbered Client 0 I.clients []) }
    requires disk { opened.disk ≡ known Disk [] I.first 0 }
    requires first { (first ≡ I.first) × (first ≤ 100) }
    ensures { IfSome result (λ r. Replays I.catalog I.opening r.list × Orders I.catalog I.opening r.list) }
{
    let NewLog {
        log,
        parts,
        clients,
        notes: _,
        disk,
    } = opened;
    let (zero, one) = by_number(parts, clients);
    both(rt, alloc, log, zero, one, disk, first)
}

/// The streams of the empty database, and how many batches each of the two procedures has taken there.
fn empty(alloc: Global, catalog: &Catalog) -> Option<(Streams, Seq<u64>)>
    requires { catalog.now ≡ workflow }
    ensures streams { IfSome result (λ r. AreStreamsOf catalog.now (empty_database catalog.now) r.0.streams) }
    ensures counts { IfSome result (λ r. r.1 ≡ 0 ∷ 0 ∷ []) }
{
    let mut counts = Seq::new(alloc);
    counts.push(0u64).ok()?;
    counts.push(0u64).ok()?;
    let streams = empty_streams(alloc, catalog).ok()?;
    Some((streams, counts))
}

/// One incarnation: opens a log on the empty database, lets both threads run, and closes it.
fn incarnation<I: Life + Send + Sync, R: Threads + Wait + Sync>(
    rt: &R,
    alloc: Global,
    blank: Blank,
    opening: Opening,
    catalog: &Catalog,
) -> Option<Run>
    requires blank { (blank.opening ≡ opening) × (blank.table.shared.table_id ≡ I.table) }
    requires numbers { (opening.first ≡ I.first) × (opening.limit ≡ I.limit) × (opening.parts ≡ I.parts) × (opening.clients ≡ I.clients) }
    requires small { (opening.first ≤ 100) × (opening.limit ≤ 1000) }
    requires life { IsTestLife I.catalog I.opening I.parts I.clients }
    requires catalog { catalog.now ≡ I.catalog }
    ensures { IfSome result (λ r. Replays I.catalog I.opening r.list × Orders I.catalog I.opening r.list) }
{
    let (streams, counts) = empty(alloc, catalog)?;
    let opened = CommitLog::<I>::open(blank, alloc, catalog, streams, counts, opening).ok()?;
    run_on(rt, alloc, opened, opening.first)
}

/// A whole run from this place on.
fn day<R: Threads + Wait + Sync>(rt: &R, alloc: Global, first: u64) -> Option<Run>
    requires { first ≤ 100 }
    ensures { IfSome result (λ r. Replays workflow (empty_database workflow) r.list × Orders workflow (empty_database workflow) r.list) }
{
    let opening = Opening {
        first,
        limit: 1000,
        parts: 2,
        clients: 2,
    };
    let blank = Blank::new(alloc, &opening).ok()?;
    let catalog = catalog(alloc)?;
    incarnation::<Brand, R>(rt, alloc, blank, opening, &catalog)
}

#[test]
fn two_threads_on_one_list(rt: HostRuntime) -> Result<(), Fail> {
    let run = day(&rt, rt.alloc(), 5).ok_or(
        "all three commit, the batch is seen, and so is the post",
    )?;
    assert_eq!(rt; run.list.len(), 3);
    // The step stands behind the push, since its batch was found; the call stands anywhere.
    assert!(rt; run.push >= 5 && run.push < run.step && run.step <= 7);
    assert!(rt; run.call >= 5 && run.call <= 7 && run.call != run.push && run.call != run.step);
    Ok(())
}

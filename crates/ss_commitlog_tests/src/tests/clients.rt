//! What each client does on a thread of its own.
//!
//! Marks, catalogues and answers have many lists, which are let go wherever a function may leave while they are there. So each
//! function holds few of them.

ghost use Rattle.std.specs.Prelude.{◌≡◌, ◌≤◌, ◌+◌, [], ◌∷◌, IfSome};
ghost use Rattle.ss_commitlog.specs.declared.role.Role.TheVariants.{Part, Client, Disk};
ghost use Rattle.ss_commitlog.specs.Tokens.{known, roles_of};
ghost use Rattle.ss_commitlog_tests.specs.Workflow.{workflow};
ghost use Rattle.ss_commitlog_tests.specs.Lives.{IsTestLife, pair_of};

use super::catalog::{batch_of, call_of, catalog, push_of, step_of};
use ss_commitlog::{CommitLog, Mark, Marks, Note};
use ss_model::{Catalog, Life};
use ss_value::Seq;
use std::alloc::Global;
use std::sync::Wait;

/// Adds the push of client 0.
fn push<I: Life, R: Wait>(
    rt: &R,
    alloc: Global,
    log: &CommitLog<I>,
    catalog: &Catalog,
    marks: &mut Marks<I>,
) -> Option<u64>
    requires life { IsTestLife I.catalog I.opening I.parts I.clients }
    requires catalog { catalog.now ≡ I.catalog }
    requires marks { marks.old ≡ pair_of 0 I.first }
    ensures { roles_of marks.new ≡ roles_of marks.old }
{
    let emitted = batch_of(alloc)?;
    let listed = push_of(alloc)?;
    log.commit(rt, catalog, marks, listed, emitted).ok()
}

/// Adds the step on the batch that was pushed, where the mark of its partition finds it.
fn step<I: Life, R: Wait>(
    rt: &R,
    alloc: Global,
    log: &CommitLog<I>,
    catalog: &Catalog,
    mut mark: Mark<I>,
) -> Option<u64>
    requires life { IsTestLife I.catalog I.opening I.parts I.clients }
    requires catalog { catalog.now ≡ I.catalog }
    requires mark { mark.role ≡ Part 0 }
{
    let Ok(Some(_rows)) = log.look(rt, alloc, &mut mark, 0, 0, 0) else {
        return None;
    };
    let mut marks = one(alloc, mark)?;
    log.commit(rt, catalog, &mut marks, step_of(alloc), Seq::new(alloc))
        .ok()
}

/// A mark alone.
fn one<I: Life>(alloc: Global, mark: Mark<I>) -> Option<Marks<I>>
    ensures { IfSome result (λ marks. marks ≡ mark ∷ []) }
{
    let mut marks = Seq::new(alloc);
    marks.push(mark).ok()?;
    Some(marks)
}

/// Adds the call of client 1.
fn call<I: Life, R: Wait>(
    rt: &R,
    alloc: Global,
    log: &CommitLog<I>,
    catalog: &Catalog,
    marks: &mut Marks<I>,
) -> Option<u64>
    requires life { IsTestLife I.catalog I.opening I.parts I.clients }
    requires catalog { catalog.now ≡ I.catalog }
    requires marks { marks.old ≡ pair_of 1 I.first }
{
    log.commit(rt, catalog, marks, call_of(alloc), Seq::new(alloc))
        .ok()
}

/// Looks until it sees the batch that client 0 pushed.
fn batch_seen<I: Life, R: Wait>(
    rt: &R,
    alloc: Global,
    log: &CommitLog<I>,
    mut mark: Mark<I>,
) -> bool
    requires { I.catalog ≡ workflow }
{
    for _ in 0..10_000_000u32 {
        if let Ok(Some(_)) = log.look(rt, alloc, &mut mark, 0, 0, 0) {
            return true;
        }
    }
    false
}

/// Looks until a count above this one is posted.
fn post_seen<I: Life>(log: &CommitLog<I>, mut mark: Mark<I>, count: u64) -> bool {
    for _ in 0..1_000_000_000u32 {
        if log.see(&mut mark).count > count {
            return true;
        }
    }
    false
}

/// The push of client 0, and behind the post of the other thread the step on its batch.
fn push_then_step<I: Life, R: Wait>(
    rt: &R,
    alloc: Global,
    log: &CommitLog<I>,
    catalog: &Catalog,
    mut marks: Marks<I>,
    first: u64,
) -> Option<(u64, u64)>
    requires life { IsTestLife I.catalog I.opening I.parts I.clients }
    requires catalog { catalog.now ≡ I.catalog }
    requires marks { marks ≡ pair_of 0 I.first }
{
    let pushed = push(rt, alloc, log, catalog, &mut marks)?;
    let client = marks.pop()?;
    let part = marks.pop()?;
    if !post_seen(log, client, first) {
        return None;
    }
    let stepped = step(rt, alloc, log, catalog, part)?;
    Some((pushed, stepped))
}

/// What client 0 does: it pushes, waits for the post of the other thread, and runs the step on its batch. Each thread has a
/// catalogue of its own.
pub fn push_and_step<I: Life, R: Wait>(
    rt: &R,
    alloc: Global,
    log: &CommitLog<I>,
    marks: Marks<I>,
    first: u64,
) -> Option<(u64, u64)>
    requires life { IsTestLife I.catalog I.opening I.parts I.clients }
    requires marks { marks ≡ pair_of 0 I.first }
{
    let catalog = catalog(alloc)?;
    push_then_step(rt, alloc, log, &catalog, marks, first)
}

/// The call of client 1, which then looks until it sees the batch, and posts that with the disk's note.
fn call_then_post<I: Life, R: Wait>(
    rt: &R,
    alloc: Global,
    log: &CommitLog<I>,
    catalog: &Catalog,
    mut marks: Marks<I>,
    note: &mut Note<I>,
    first: u64,
) -> Option<u64>
    requires life { IsTestLife I.catalog I.opening I.parts I.clients }
    requires catalog { catalog.now ≡ I.catalog }
    requires marks { marks ≡ pair_of 1 I.first }
    requires note { note.old ≡ known Disk [] I.first 0 }
    requires first { (first ≡ I.first) × (first ≤ 100) }
    ensures { note.new.role ≡ Disk }
{
    let place = call(rt, alloc, log, catalog, &mut marks)?;
    let mark = marks.pop()?;
    if !batch_seen(rt, alloc, log, mark) {
        return None;
    }
    log.post(note, first + 1, 0);
    Some(place)
}

/// What client 1 does: it calls, looks until it sees the batch, and posts that with the disk's note, which it gives back.
pub fn call_and_post<I: Life, R: Wait>(
    rt: &R,
    alloc: Global,
    log: &CommitLog<I>,
    marks: Marks<I>,
    mut note: Note<I>,
    first: u64,
) -> Option<(Note<I>, u64)>
    requires life { IsTestLife I.catalog I.opening I.parts I.clients }
    requires marks { marks ≡ pair_of 1 I.first }
    requires note { note ≡ known Disk [] I.first 0 }
    requires first { (first ≡ I.first) × (first ≤ 100) }
    ensures { IfSome result (λ r. r.0.role ≡ Disk) }
{
    let catalog = catalog(alloc)?;
    let place = call_then_post(rt, alloc, log, &catalog, marks, &mut note, first)?;
    Some((note, place))
}

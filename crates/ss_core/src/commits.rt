//! Commits: entries that join the list.

ghost use Rattle.std.specs.Prelude.{◌≡◌, ◌≤◌, ◌↔◌, ◌+◌, cond, get_or, drop, length, IfOk, IfErr, IsTrue};
ghost use Rattle.std.specs.List.{list_all};
ghost use Rattle.ss_core.specs.declared.machine.StepError.TheVariants.{NotEnabled};
ghost use Rattle.ss_core.specs.declared.machine.Event.TheVariants.{Commit};
ghost use Rattle.ss_core.specs.Commits.{is_touched, IsHolder, EachTouched, has_lower_index, is_next_index, MayCommit, known_after};
ghost use Rattle.ss_core.specs.Machine.{Leads, CannotLead};

use crate::hands::is_holder;
use crate::machine::{Core, StepError};
use crate::replayed::comes_to;
use ss_model::{Entry, Listed};
use ss_partition::touches;
use ss_value::{NoMemory, Seq};
use std::alloc::Global;

/// Whether an entry touches one of the core's partitions. Linear in a touch set, and for a push in the procedures and their
/// inputs.
fn is_touched(core: &Core, entry: &Entry, part: usize) -> bool
    ensures { result ≡ is_touched core.now entry.now part }
{
    part < usize::from(core.parts) && touches(&core.catalog, entry, core.parts, part as u8)
}

/// Whether an actor holds each partition that an entry touches.
fn is_holder_of_touched(core: &Core, actor: u8, entry: &Entry) -> bool
    ensures { IsTrue result ↔ EachTouched core.now entry.now (IsHolder core.now actor) }
{
    for part in 0..core.parts {
        if is_touched(core, entry, usize::from(part)) && !is_holder(core, actor, part) {
            return false;
        }
    }
    true
}

/// How many entries the holder of a partition knows, and 0 where it is not there.
fn known_of(core: &Core, part: usize) -> u64
    ensures { result ≡ get_or core.now.known part 0 }
{
    match core.known.get(part) {
        Some(known) => *known,
        None => 0,
    }
}

/// Whether the holders of the partitions that an entry touches know no more than the first `seen` entries.
fn sees_touched(core: &Core, entry: &Entry, seen: u64) -> bool
    ensures { IsTrue result ↔ EachTouched core.now entry.now (λ part. get_or core.now.known part 0 ≤ seen) }
{
    for part in 0..core.parts {
        if is_touched(core, entry, usize::from(part)) && known_of(core, usize::from(part)) > seen {
            return false;
        }
    }
    true
}

/// The entries since the opening.
fn since_opening(core: &Core) -> &[Listed]
    ensures { result.now ≡ drop core.now.base core.now.list }
{
    let list = core.list.as_slice();
    if core.base <= list.len() as u64 {
        &list[core.base as usize..]
    } else {
        &list[list.len()..]
    }
}

/// Whether an entry is not this client's, or has a lower index.
fn has_lower_index(client: u8, index: u64, entry: &Entry) -> bool
    ensures { result ≡ has_lower_index client index entry.now }
{
    match entry {
        Entry::Call {
            client: other,
            index: earlier,
            ..
        } => *other != client || *earlier < index,
        Entry::Push {
            client: other,
            index: earlier,
            ..
        } => *other != client || *earlier < index,
        Entry::Install {
            client: other,
            index: earlier,
            ..
        } => *other != client || *earlier < index,
        Entry::Step { .. } => true,
    }
}

/// Whether each entry is not this client's, or has a lower index.
fn all_lower(client: u8, index: u64, list: &[Listed]) -> bool
    ensures { result ≡ list_all (λ l. has_lower_index client index l.entry) list.now }
{
    list.iter()
        .all(|listed| has_lower_index(client, index, &listed.entry))
}

/// Whether an entry's index is above all others of its client.
fn is_next_index(entry: &Entry, list: &[Listed]) -> bool
    ensures { result ≡ is_next_index entry.now list.now }
{
    match entry {
        Entry::Call { client, index, .. } => all_lower(*client, *index, list),
        Entry::Push { client, index, .. } => all_lower(*client, *index, list),
        Entry::Install { client, index, .. } => all_lower(*client, *index, list),
        Entry::Step { .. } => true,
    }
}

/// Whether an entry may join the list. Costs a replay of the first `seen` entries.
fn may_commit(
    alloc: Global,
    core: &Core,
    actor: u8,
    listed: &Listed,
    seen: u64,
) -> Result<bool, NoMemory>
    ensures { IfOk result (λ may. IsTrue may ↔ MayCommit core.now actor listed.now seen) }
{
    let list = core.list.as_slice();
    if seen > list.len() as u64
        || !is_holder_of_touched(core, actor, &listed.entry)
        || !sees_touched(core, &listed.entry, seen)
        || !is_next_index(&listed.entry, since_opening(core))
    {
        return Ok(false);
    }
    comes_to(
        alloc,
        &core.catalog,
        &list[..seen as usize],
        &listed.entry,
        &listed.outcome,
    )
}

/// How many entries the holder of a partition knows, once those of the touched ones know `count`.
fn now_known(core: &Core, entry: &Entry, count: u64, part: usize, old: u64) -> u64
    ensures { result ≡ cond (is_touched core.now entry.now part) count old }
{
    if is_touched(core, entry, part) {
        count
    } else {
        old
    }
}

/// How many entries the holder of each partition knows, once those of the touched ones know `count`.
fn known_after(alloc: Global, core: &Core, entry: &Entry, count: u64) -> Result<Seq<u64>, NoMemory>
    ensures { IfOk result (λ known. known ≡ known_after core.now entry.now count) }
{
    let mut known = Seq::new(alloc);
    for (part, old) in core.known.as_slice().iter().enumerate() {
        let now = now_known(core, entry, count, part, *old);
        if known.push(now).is_err() {
            return Err(NoMemory);
        }
    }
    Ok(known)
}

/// How many entries the holder of each partition knows once an entry is at the list's end, or why it may not join the list.
/// Costs a replay of the first `seen` entries.
///
/// It reads the core and the entry, so that what refuses them lets nothing go.
fn known_once_committed(
    alloc: Global,
    core: &Core,
    actor: u8,
    listed: &Listed,
    seen: u64,
) -> Result<Seq<u64>, StepError>
    ensures may { IfOk result (λ _. MayCommit core.now actor listed.now seen) }
    ensures known { IfOk result (λ known. known ≡ known_after core.now listed.now.entry (length core.now.list + 1)) }
    ensures refused { IfErr result (λ e. e ≡ NotEnabled → CannotLead core.now (Commit actor listed.now seen)) }
{
    match may_commit(alloc, core, actor, listed, seen) {
        Err(NoMemory) => return Err(StepError::NoMemory),
        Ok(false) => return Err(StepError::NotEnabled),
        Ok(true) => (),
    }
    // No list in memory is as long as its count's greatest value.
    let Some(count) = (core.list.len() as u64).checked_add(1) else {
        return Err(StepError::NoMemory);
    };
    match known_after(alloc, core, &listed.entry, count) {
        Ok(known) => Ok(known),
        Err(NoMemory) => Err(StepError::NoMemory),
    }
}

/// An actor adds an entry that it ran after the first `seen` entries. Costs a replay of these by the definitions.
///
/// What others committed behind `seen` touches none of the entry's partitions, since the actor holds these and knew all
/// that touches them. So the entry comes to the same outcome at the list's end; that is not computed here but proved, by
/// the law `lists_are_local`.
pub fn commit(
    alloc: Global,
    core: Core,
    actor: u8,
    listed: Listed,
    seen: u64,
) -> Result<Core, (StepError, Core)>
    ensures ok { IfOk result (Leads core (Commit actor listed seen)) }
    ensures err { IfErr result (λ e. e.1 ≡ core) }
    ensures refused { IfErr result (λ e. e.0 ≡ NotEnabled → CannotLead core (Commit actor listed seen)) }
{
    // Made before the entry joins the list, so that out of memory leaves the core as it was.
    let known = match known_once_committed(alloc, &core, actor, &listed, seen) {
        Ok(known) => known,
        Err(refused) => return Err((refused, core)),
    };
    let mut core = core;
    if core.list.push(listed).is_err() {
        return Err((StepError::NoMemory, core));
    }
    core.known = known;
    Ok(core)
}

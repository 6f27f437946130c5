//! What an engine begins with, made from a database: `session/open` of `ss_engine` calls it. No lock is taken, since no thread
//! has any of it yet.

ghost use Rattle.std.specs.Prelude.{◌≡◌, ◌≤◌, ◌+◌, ◌^◌, ℕ, [], length, IfOk};
ghost use Rattle.ss_model.specs.Database.{stream_batches};
ghost use Rattle.ss_stream.specs.OfDatabase.{AreStreamsOf};
ghost use Rattle.ss_partition.specs.Homes.{homes_of};
ghost use Rattle.ss_party.specs.Turns.{bay_count};
ghost use Rattle.ss_shard.specs.Parts.{IsWholeShard};
ghost use Rattle.ss_shard.specs.Windows.{HoldsDatabase};
ghost use Rattle.ss_commitlog.specs.declared.role.Role.TheVariants.{Part, Client, Disk};
ghost use Rattle.ss_commitlog.specs.Committing.{IsOpening};
ghost use Rattle.ss_commitlog.specs.Rule.{numbered, reader};
ghost use Rattle.ss_commitlog.specs.Tokens.{known, at_opening};
ghost use Rattle.ss_lanes.specs.Lanes.{AreFresh};

use crate::bays::bays_of;
use ss_commitlog::{Blank, CommitLog, Marks, NewLog, Note, Notes, Opening};
use ss_hand::Partition;
use ss_lanes::{Hub, Lane, Room, fresh_lanes};
use ss_model::{Catalog, Life};
use ss_partition::homes;
use ss_party::Bays;
use ss_shard::Shard;
use ss_stream::Streams;
use ss_value::{NoMemory, Seq};
use std::alloc::Global;

/// All of an opened engine but its catalogue, its runner and its gate.
///
/// What is let go where memory is short is proved at each `?` behind it; so these are made by some calls, each of which has
/// little alive, instead of by one.
#[derive(Drop)]
pub struct Begun<I: Life> {
    /// The log before its first entry, with the inboxes of all partitions and the slots of all clients.
    pub hub: Hub<I>,
    /// A bay for each partition, with its shard and its mark.
    pub bays: Bays<Partition<I>>,
    /// The home of each procedure, by number.
    pub homes: Seq<u8>,
    /// The lane of each client, by number.
    pub lanes: Vec<Lane<I>>,
    /// As many notes of readers as there are partitions.
    pub notes: Notes<I>,
    /// The disk's note.
    pub disk: Note<I>,
    /// Room for what the close collects.
    pub room: Room<I>,
}

/// What an engine begins with, over the shard of all partitions and the streams of the opening's database: first what the log opens,
/// with bays and lanes over its marks, then what threads share. The next request of each client has its number in `starts`, 0 where
/// there is none.
///
/// Out of memory is its one error. Costs what `split` costs, and as much again for each inbox and slot; no row is moved.
pub fn begin<I: Life>(
    alloc: Global,
    blank: Blank,
    catalog: &Catalog,
    whole: Shard,
    streams: Streams,
    opening: Opening,
    starts: &[u64],
) -> Result<Begun<I>, NoMemory>
    requires blank { (blank.opening ≡ opening) × (blank.table.shared.table_id ≡ I.table) }
    requires numbers { (opening.first ≡ I.first) × (opening.limit ≡ I.limit) × (opening.parts ≡ I.parts) × (opening.clients ≡ I.clients) }
    requires small { opening.first + opening.limit ≤ 2 ^ 60 }
    requires catalog { catalog.now ≡ I.catalog }
    requires opening { IsOpening I.catalog I.parts I.opening }
    requires parts { opening.parts ≤ 8 }
    requires whole { IsWholeShard I.catalog I.parts whole × HoldsDatabase I.catalog whole I.opening }
    requires streams { AreStreamsOf I.catalog I.opening streams.streams }
    requires few { (s : ℕ) → length (stream_batches I.opening s) ≤ opening.first }
    ensures homes { IfOk result (λ b. b.homes ≡ homes_of I.catalog I.parts) }
    ensures bays { IfOk result (λ b. bay_count b.bays ≡ I.parts) }
    ensures lanes { IfOk result (λ b. AreFresh I.first I.clients starts.now b.lanes.items) }
    ensures notes { IfOk result (λ b. b.notes ≡ at_opening I.first (numbered reader 0 I.parts [])) }
    ensures disk { IfOk result (λ b. b.disk ≡ known Disk [] I.first 0) }
{
    let NewLog {
        log,
        parts,
        clients,
        notes,
        disk,
    } = log_of(alloc, blank, catalog, &whole, streams, opening)?;
    let (bays, lanes, notes) = bays_and_lanes(
        alloc, catalog, whole, opening, starts, parts, clients, notes,
    )?;
    let (hub, homes, room) = shared_of(alloc, catalog, log, opening)?;
    Ok(Begun {
        hub,
        bays,
        homes,
        lanes,
        notes,
        disk,
        room,
    })
}

/// The log with its tokens, over the streams and the shard of all partitions. Costs what `CommitLog::open` does.
fn log_of<I: Life>(
    alloc: Global,
    blank: Blank,
    catalog: &Catalog,
    whole: &Shard,
    streams: Streams,
    opening: Opening,
) -> Result<NewLog<I>, NoMemory>
    requires blank { (blank.opening ≡ opening) × (blank.table.shared.table_id ≡ I.table) }
    requires numbers { (opening.first ≡ I.first) × (opening.limit ≡ I.limit) × (opening.parts ≡ I.parts) × (opening.clients ≡ I.clients) }
    requires small { opening.first + opening.limit ≤ 2 ^ 60 }
    requires catalog { catalog.now ≡ I.catalog }
    requires opening { IsOpening I.catalog I.parts I.opening }
    requires whole { HoldsDatabase I.catalog whole.now I.opening }
    requires streams { AreStreamsOf I.catalog I.opening streams.streams }
    requires few { (s : ℕ) → length (stream_batches I.opening s) ≤ opening.first }
    ensures parts { IfOk result (λ o. o.parts ≡ at_opening I.first (numbered Part 0 I.parts [])) }
    ensures clients { IfOk result (λ o. o.clients ≡ at_opening I.first (numbered Client 0 I.clients [])) }
    ensures notes { IfOk result (λ o. o.notes ≡ at_opening I.first (numbered reader 0 (I.parts + I.clients) [])) }
    ensures disk { IfOk result (λ o. o.disk ≡ known Disk [] I.first 0) }
{
    let counts = counts_of(alloc, whole)?;
    CommitLog::open(blank, alloc, catalog, streams, counts, opening)
}

/// A copy of a shard's counts of batches taken. Linear in the procedures.
fn counts_of(alloc: Global, shard: &Shard) -> Result<Seq<u64>, NoMemory>
    ensures { IfOk result (λ counts. counts ≡ shard.now.cursors) }
{
    let counts: Vec<u64> = shard.cursors().iter().copied().collect(alloc)?;
    Ok(Seq::from_vec(counts))
}

/// A bay for each partition and a lane for each client, over their marks; and the notes that the lanes leave.
fn bays_and_lanes<I: Life>(
    alloc: Global,
    catalog: &Catalog,
    whole: Shard,
    opening: Opening,
    starts: &[u64],
    parts: Marks<I>,
    clients: Marks<I>,
    mut notes: Notes<I>,
) -> Result<(Bays<Partition<I>>, Vec<Lane<I>>, Notes<I>), NoMemory>
    requires numbers { (opening.parts ≡ I.parts) × (opening.clients ≡ I.clients) }
    requires catalog { catalog.now ≡ I.catalog }
    requires opening { IsOpening I.catalog I.parts I.opening }
    requires few { opening.parts ≤ 8 }
    requires whole { IsWholeShard I.catalog I.parts whole × HoldsDatabase I.catalog whole I.opening }
    requires parts { parts ≡ at_opening I.first (numbered Part 0 I.parts []) }
    requires clients { clients ≡ at_opening I.first (numbered Client 0 I.clients []) }
    requires notes { notes ≡ at_opening I.first (numbered reader 0 (I.parts + I.clients) []) }
    ensures bays { IfOk result (λ made. bay_count made.0 ≡ I.parts) }
    ensures lanes { IfOk result (λ made. AreFresh I.first I.clients starts.now made.1.items) }
    ensures notes { IfOk result (λ made. made.2 ≡ at_opening I.first (numbered reader 0 I.parts [])) }
{
    let bays = bays_of(alloc, catalog, whole, opening.parts, parts)?;
    let lanes = fresh_lanes(alloc, opening.clients, starts, clients, &mut notes)?;
    Ok((bays, lanes, notes))
}

/// The hub before a log, with the home of each procedure, and room for what the close collects.
fn shared_of<I: Life>(
    alloc: Global,
    catalog: &Catalog,
    log: CommitLog<I>,
    opening: Opening,
) -> Result<(Hub<I>, Seq<u8>, Room<I>), NoMemory>
    requires numbers { (opening.parts ≡ I.parts) × (opening.clients ≡ I.clients) }
    requires catalog { catalog.now ≡ I.catalog }
    requires opening { IsOpening I.catalog I.parts I.opening }
    ensures { IfOk result (λ made. made.1 ≡ homes_of I.catalog I.parts) }
{
    let homes = homes(alloc, catalog, opening.parts)?;
    let room = Room::new(alloc, opening.clients)?;
    let hub = Hub::new(alloc, log, opening.parts, opening.clients)?;
    Ok((hub, homes, room))
}

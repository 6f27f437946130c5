//! The opening of a log under a name, with all its tokens. `ss_opening` calls it; no thread has the log yet, and no lock is
//! taken.

ghost use Rattle.std.specs.Prelude.{◌≡◌, ◌≤◌, ◌+◌, ◌^◌, ℕ, [], length, vec_capacity, IfOk};
ghost use Rattle.ss_model.specs.Database.{stream_batches};
ghost use Rattle.ss_partition.specs.Homes.{homes_of};
ghost use Rattle.ss_stream.specs.OfDatabase.{AreStreamsOf};
ghost use Rattle.ss_commitlog.specs.declared.role.Role.TheVariants.{Part, Client, Disk};
ghost use Rattle.ss_commitlog.specs.Rule.{numbered, reader};
ghost use Rattle.ss_commitlog.specs.Tokens.{known, at_opening};
ghost use Rattle.ss_commitlog.specs.Committing.{IsOpening};

use crate::blank::Blank;
use crate::desk::Desk;
use crate::hands::give_back;
use crate::log::CommitLog;
use crate::notes::give_one;
use crate::rule::Opening;
use crate::token::{Mark, Marks, Note, Notes};
use ss_model::{Catalog, Life};
use ss_partition::homes;
use ss_stream::Streams;
use ss_value::{NoMemory, Reserved, Seq};
use std::alloc::Global;
use std::marker::PhantomData;
use std::sync::Mutex;

/// A log that was just opened, with a token for everybody who is to hold one.
#[derive(Drop)]
pub struct NewLog<I: Life> {
    pub log: CommitLog<I>,
    /// The mark of each partition, by number.
    pub parts: Marks<I>,
    /// The mark of each client, by number.
    pub clients: Marks<I>,
    /// As many notes of readers as there are partitions and clients.
    pub notes: Notes<I>,
    /// The disk's note.
    pub disk: Note<I>,
}

/// What an opening takes memory for.
#[derive(Drop)]
struct Room<I: Life> {
    /// The home of each procedure.
    homes: Seq<u8>,
    /// Lists with room for the marks of partitions, for those of clients, and for notes.
    parts: Vec<Mark<I>>,
    clients: Vec<Mark<I>>,
    notes: Vec<Note<I>>,
}

/// The homes of the catalogue's procedures, and lists with room for each token that an opening deals.
fn room_for<I: Life>(
    alloc: Global,
    catalog: &Catalog,
    opening: &Opening,
) -> Result<Room<I>, NoMemory>
    requires some { 1 ≤ opening.now.parts }
    ensures homes { IfOk result (λ r. r.homes ≡ homes_of catalog.now opening.now.parts) }
    ensures parts { IfOk result (λ r. (r.parts.items ≡ []) × (opening.now.parts ≤ vec_capacity r.parts)) }
    ensures clients { IfOk result (λ r. (r.clients.items ≡ []) × (opening.now.clients ≤ vec_capacity r.clients)) }
    ensures notes { IfOk result (λ r. (r.notes.items ≡ []) × (opening.now.parts + opening.now.clients ≤ vec_capacity r.notes)) }
{
    let homes = homes(alloc, catalog, opening.parts)?;
    let parts_count = opening.parts as usize;
    let clients_count = opening.clients as usize;
    let parts = Vec::with_capacity(alloc, parts_count)?;
    let clients = Vec::with_capacity(alloc, clients_count)?;
    let notes = Vec::with_capacity(alloc, parts_count + clients_count)?;
    Ok(Room {
        homes,
        parts,
        clients,
        notes,
    })
}

impl<I: Life> CommitLog<I> {
    /// A log with an empty list, over the streams and counts of the opening's database. Linear in the catalogue.
    pub fn open(
        blank: Blank,
        alloc: Global,
        catalog: &Catalog,
        streams: Streams,
        counts: Seq<u64>,
        opening: Opening,
    ) -> Result<NewLog<I>, NoMemory>
        requires blank { (blank.opening ≡ opening) × (blank.table.shared.table_id ≡ I.table) }
        requires numbers { (opening.first ≡ I.first) × (opening.limit ≡ I.limit) × (opening.parts ≡ I.parts) × (opening.clients ≡ I.clients) }
        requires small { opening.first + opening.limit ≤ 2 ^ 60 }
        requires catalog { catalog.now ≡ I.catalog }
        requires opening { IsOpening I.catalog I.parts I.opening }
        requires streams { AreStreamsOf I.catalog I.opening streams.streams }
        requires counts { counts ≡ I.opening.counts }
        requires few { (s : ℕ) → length (stream_batches I.opening s) ≤ opening.first }
        ensures parts { IfOk result (λ o. o.parts ≡ at_opening I.first (numbered Part 0 I.parts [])) }
        ensures clients { IfOk result (λ o. o.clients ≡ at_opening I.first (numbered Client 0 I.clients [])) }
        ensures notes { IfOk result (λ o. o.notes ≡ at_opening I.first (numbered reader 0 (I.parts + I.clients) [])) }
        ensures disk { IfOk result (λ o. o.disk ≡ known Disk [] I.first 0) }
    {
        let room = room_for(alloc, catalog, &opening)?;
        let parts_count = opening.parts as usize;
        let clients_count = opening.clients as usize;
        let notes_count = parts_count + clients_count;
        let Room {
            homes,
            mut parts,
            mut clients,
            mut notes,
        } = room;
        let Blank {
            table,
            mut seat,
            ..
        } = blank;
        give_back(&table, &mut seat, &mut parts, parts_count);
        give_back(&table, &mut seat, &mut clients, clients_count);
        give_back(&table, &mut seat, &mut notes, notes_count);
        let disk = give_one(&table, &mut seat);
        let desk = Desk {
            alloc,
            list: Reserved::new(alloc),
            streams,
            counts,
            homes,
            first: opening.first,
            limit: opening.limit,
            seat,
            of: PhantomData,
        };
        Ok(NewLog {
            log: CommitLog {
                table,
                desk: Mutex::new(desk),
            },
            parts: Seq::from_vec(parts),
            clients: Seq::from_vec(clients),
            notes: Seq::from_vec(notes),
            disk,
        })
    }
}

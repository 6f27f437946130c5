//! The opening of an engine, with a lane for each client, for `run`: what `ss_opening` makes of a database, with the catalogue,
//! the runner and the gate. No thread has it yet, and no lock is taken.

ghost use Rattle.std.specs.Prelude.{◌≡◌, ◌≤◌, ◌+◌, ◌^◌, ℕ, [], length, IfOk};
ghost use Rattle.ss_model.specs.Database.{stream_batches};
ghost use Rattle.ss_stream.specs.OfDatabase.{AreStreamsOf};
ghost use Rattle.ss_shard.specs.Parts.{IsWholeShard};
ghost use Rattle.ss_shard.specs.Windows.{HoldsDatabase};
ghost use Rattle.ss_commitlog.specs.declared.role.Role.TheVariants.{Disk};
ghost use Rattle.ss_commitlog.specs.Committing.{IsOpening};
ghost use Rattle.ss_commitlog.specs.Rule.{numbered, reader};
ghost use Rattle.ss_commitlog.specs.Tokens.{known, at_opening};
ghost use Rattle.ss_engine.specs.Engines.{AllowsCheckpoints};
ghost use Rattle.ss_lanes.specs.Lanes.{AreFresh};

use crate::engine::Engine;
use ss_commitlog::{Blank, Note, Notes, Opening};
use ss_lanes::{Lane, Room};
use ss_model::{Catalog, Life};
use ss_opening::{Begun, begin};
use ss_proc::Runner;
use ss_settle::Gate;
use ss_shard::Shard;
use ss_stream::Streams;
use ss_value::NoMemory;
use std::alloc::Global;

/// An engine that was just opened, with all that its users hold.
#[derive(Drop)]
pub struct NewEngine<I: Life, N: Runner + Drop, G: Gate + Drop> {
    /// What threads share.
    pub engine: Engine<I, N, G>,
    /// The lane of each client, by number.
    pub lanes: Vec<Lane<I>>,
    /// As many notes of readers as there are partitions: one for each executor.
    pub notes: Notes<I>,
    /// The disk's note.
    pub disk_note: Note<I>,
    /// Room for what the close collects.
    pub room: Room<I>,
}

impl<I: Life, N: Runner + Drop, G: Gate + Drop> Engine<I, N, G> {
    /// An engine with an empty list, over the shard of all partitions and the streams of the opening's database. The next request of
    /// each client has its number in `starts`, 0 where there is none.
    ///
    /// Out of memory is its one error. Costs what `split` costs, and as much again for each inbox and slot; no row is moved.
    pub fn open(
        blank: Blank,
        alloc: Global,
        catalog: Catalog,
        whole: Shard,
        streams: Streams,
        runner: N,
        gate: G,
        opening: Opening,
        starts: &[u64],
    ) -> Result<NewEngine<I, N, G>, NoMemory>
        requires blank { (blank.opening ≡ opening) × (blank.table.shared.table_id ≡ I.table) }
        requires numbers { (opening.first ≡ I.first) × (opening.limit ≡ I.limit) × (opening.parts ≡ I.parts) × (opening.clients ≡ I.clients) }
        requires small { opening.first + opening.limit ≤ 2 ^ 60 }
        requires catalog { catalog ≡ I.catalog }
        requires opening { IsOpening I.catalog I.parts I.opening }
        requires parts { opening.parts ≤ 8 }
        requires whole { IsWholeShard I.catalog I.parts whole × HoldsDatabase I.catalog whole I.opening }
        requires streams { AreStreamsOf I.catalog I.opening streams.streams }
        requires few { (s : ℕ) → length (stream_batches I.opening s) ≤ opening.first }
        requires checkpoints { AllowsCheckpoints I.catalog I.opening I.first I.every }
        ensures lanes { IfOk result (λ o. AreFresh I.first I.clients starts.now o.lanes.items) }
        ensures notes { IfOk result (λ o. o.notes ≡ at_opening I.first (numbered reader 0 I.parts [])) }
        ensures disk { IfOk result (λ o. o.disk_note ≡ known Disk [] I.first 0) }
    {
        let Ok(begun) = begin(alloc, blank, &catalog, whole, streams, opening, starts) else {
            return Err(NoMemory);
        };
        let Begun {
            hub,
            bays,
            homes,
            lanes,
            notes,
            disk: disk_note,
            room,
        } = begun;
        Ok(NewEngine {
            engine: Engine {
                hub,
                bays,
                catalog,
                homes,
                parts: opening.parts,
                runner,
                gate,
            },
            lanes,
            notes,
            disk_note,
            room,
        })
    }
}

//! The engine that threads share, whatever they do there: a value without calls of its own. `session/open` makes it and
//! `session/close` takes it apart; the calls on it stand in the folders `client`, `partition` and `session`.

use ss_hand::Partition;
use ss_lanes::Hub;
use ss_model::{Catalog, Life};
use ss_party::Bays;
use ss_proc::Runner;
use ss_settle::Gate;
use ss_turns::Works;
use ss_value::Seq;
use std::alloc::Global;
use std::marker::Model;
use std::sync::Wait;

/// A database in partitions, whose executions are one list whatever threads run them.
///
/// Clients hand requests to the inboxes of partitions by their lanes (`submit`); whoever pumps an inbox runs what waits there
/// (`pump`). While a body runs, no lock is held; its partitions are in hand. The log's lock is taken for moments: where
/// partitions are taken, for looks at what is ready and for batches, for the commit, and where a note meets a mark.
///
/// It is one type, and `pump` one of its calls, instead of a trait of whoever runs the work of an inbox, because the
/// checker doesn't cover a call through such a trait where partitions are the values of bays.
#[derive(Drop)]
pub struct Engine<I: Life, N: Runner + Drop, G: Gate + Drop> {
    pub(crate) hub: Hub<I>,
    pub(crate) bays: Bays<Partition<I>>,
    pub(crate) catalog: Catalog,
    // The home of each procedure, by number.
    pub(crate) homes: Seq<u8>,
    // How many partitions run.
    pub(crate) parts: u8,
    pub(crate) runner: N,
    pub(crate) gate: G,
}

impl<I: Life, N: Runner + Drop, G: Gate + Drop> Model for Engine<I, N, G> {
    ghost use Rattle.atomic_table.specs.Seated.{TableId};
    ghost use Rattle.ss_engine.specs.Engines.{IsEngine};

    ghost Value = { TableId };

    ghost view = { λ e. e.bays };

    ghost invariant = { λ e. IsEngine I.catalog I.parts I.first I.limit I.opening I.every e.catalog e.homes e.parts e.bays };
}

impl<I: Life, N: Runner + Drop, G: Gate + Drop> Engine<I, N, G> {
    /// What each execution of this engine is given. Lends it; takes no lock and no memory. `pump` calls it: the close, which has
    /// taken the engine apart, makes its own.
    pub(crate) fn works<'a, R: Wait>(&'a self, rt: &'a R, alloc: Global) -> Works<'a, I, N, R> {
        Works {
            rt,
            alloc,
            log: &self.hub.log,
            catalog: &self.catalog,
            runner: &self.runner,
            parts: self.parts,
        }
    }
}

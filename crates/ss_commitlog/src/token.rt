//! The tokens of a log: rights without bytes, which callers hold and lend to its calls.

use crate::rule::LogSeat;
use ss_model::Life;
use ss_value::Seq;
use std::marker::{Model, PhantomData};

/// A role in the log, with a list that the log began with and the posted numbers as the token has last seen them.
///
/// A token has no bytes: it is a right. Contracts see its role, that list and those numbers. The list replays from the
/// opening's database, and nothing behind it in the log concerns the token's role.
///
/// A mark and a note are one type, whose role contracts see, instead of two: the role is all that tells them apart, and
/// two types would double each proof and add no fact.
#[derive(Drop)]
pub struct LogToken<I: Life> {
    pub(crate) seat: LogSeat,
    pub(crate) of: PhantomData<I>,
}

/// The token of a partition or a client.
pub type Mark<I> = LogToken<I>;

/// The token of a reader, or of the disk.
pub type Note<I> = LogToken<I>;

/// Marks, each of its own role.
pub type Marks<I> = Seq<Mark<I>>;

/// Notes.
pub type Notes<I> = Seq<Note<I>>;

impl<I: Life> Model for LogToken<I> {
    ghost use Rattle.std.specs.Prelude.{◌≡◌, []};
    ghost use Rattle.ss_commitlog.specs.Meaning.{IsLegal};
    ghost use Rattle.ss_commitlog.specs.Tokens.{Known, known_of, seat_view};

    ghost Value = { Known };

    ghost view = { λ m. known_of m.seat.me.0 };

    ghost invariant = { λ m.
        (m.seat.table_id ≡ I.table) × (m.seat.me ≡ (seat_view (known_of m.seat.me.0), []))
        × IsLegal I.catalog I.parts I.clients I.limit I.opening (known_of m.seat.me.0).list };
}

impl<I: Life> LogToken<I> {
    ghost use Rattle.std.specs.Prelude.{◌≤◌, length};
    ghost use Rattle.ss_model.specs.Replays.{Replays};
    ghost use Rattle.ss_commitlog.specs.Meaning.{listed_of};

    /// The list that a token knows is one that its log may have: it replays, and has no more entries than it may. A fact of
    /// the type, told to callers; the call does nothing.
    pub fn knows_what_replays(&self)
        ensures replays { Replays I.catalog I.opening (listed_of self.now.list) }
        ensures within { length self.now.list ≤ I.limit }
    {
        let _seat = &self.seat;
    }
}

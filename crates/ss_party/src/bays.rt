//! The calls.

ghost use Rattle.std.specs.Prelude.{◌≡◌, ◌<◌, ◌≤◌, ℕ, [], length, vec_capacity, IfSome, IfNone, IfOk, IfErr};
ghost use Rattle.std.specs.Int.{IsBitSet};
ghost use Rattle.ss_party.specs.Tags.{TagsFrom};
ghost use Rattle.ss_party.specs.Turns.{bay_count, turn_of, IsAlone, IsTaken, IsGathered};

use crate::moving::{empty_slots, fill_slots};
use crate::rule::{BayTable, Gives};
use crate::sleepers::Sleepers;
use crate::tagged::Tagged;
use crate::taking::{only_member, take_all, take_if_full, take_members, take_when_full};
use crate::turn::Turn;
use ss_value::{NoMemory, PartSet, Seq};
use std::alloc::Global;
use std::marker::Model;
use std::sync::{Mutex, Wait};

/// One to eight bays, numbered from 0, each with the value of its number or empty.
///
/// Contracts see which bays they are: a name that no other `Bays` has, with their count. What is in them they don't see,
/// because that may be another thing at the next step. A turn names its bays too, so that it can't be used at others.
#[derive(Drop)]
pub struct Bays<T: Tagged> {
    table: BayTable<T>,
    sleepers: Sleepers,
    // Nobody waits for it: `close` has it alone. The lock lets the bays be shared where values may only be sent.
    room: Mutex<Room<T>>,
}

// An empty list with room for the value of each bay, which waits for `close`: so `close` has no error, for which
// whoever closes an engine has no use.
#[derive(Drop)]
struct Room<T> {
    list: Vec<T>,
    ghost empty: { (list.items ≡ []) × (8 ≤ vec_capacity list) },
}

impl<T: Tagged> Model for Bays<T> {
    ghost use Rattle.atomic_table.specs.Seated.{TableId};
    ghost use Rattle.ss_party.specs.Rule.{AreBays};

    ghost Value = { TableId };

    ghost view = { λ b. b.table.shared.table_id };

    ghost invariant = { λ b. AreBays b.table.shared.table_id };
}

impl<T: Tagged> Bays<T> {
    /// Full bays, one for each item, in the order of the items: the tag of the one at position p is p.
    ///
    /// Out of memory gives the items back. Takes memory for eight items, and for a word and a slot for each.
    pub fn new(alloc: Global, items: Seq<T>) -> Result<Bays<T>, (NoMemory, Seq<T>)>
        requires count { (0 < length items) × (length items ≤ 8) }
        requires tags { TagsFrom T.tag 0 items }
        ensures ok { IfOk result (λ bays. bay_count bays ≡ length items) }
        ensures err { IfErr result (λ e. e.1 ≡ items) }
    {
        let mut items = items.into_vec();
        let count = items.len();
        if items.reserve(8).is_err() {
            return Err((NoMemory, Seq::from_vec(items)));
        }
        let Ok(mut slots) = Vec::with_capacity(alloc, count) else {
            return Err((NoMemory, Seq::from_vec(items)));
        };
        fill_slots(&mut items, &mut slots);
        let ones = [1u64; 8];
        match BayTable::<T>::new(alloc, &ones[..count], slots, &()) {
            Ok((table, _seat)) => Ok(Bays {
                table,
                sleepers: Sleepers::new(),
                room: Mutex::new(Room { list: items }),
            }),
            Err(refused) => {
                empty_slots(refused.slots, &mut items);
                Err((NoMemory, Seq::from_vec(items)))
            }
        }
    }

    /// Takes the value of bay p, with the turn to fill it. None where the bay was empty at this step.
    ///
    /// One step. Takes no memory and waits for nobody.
    pub fn try_take(&self, p: u8) -> Option<(T, Turn<T>)>
        requires { p < bay_count self.now }
        ensures some { IfSome result (λ taken. IsTaken T.tag self.now p taken) }
    {
        take_if_full(&self.table, p as usize)
    }

    /// Fills the bay of the turn with a value that belongs there, and wakes one of those who wait for it.
    ///
    /// One step. Takes no memory and waits for nobody.
    pub fn put(&self, turn: Turn<T>, value: T)
        requires { turn ≡ turn_of self.now (T.tag value) }
    {
        let Turn { bay, mut seat } = turn;
        let _nothing = self.table.shared.exchange(&mut seat, bay, Some(value));
        self.table.shared.store::<Gives>(&mut seat, bay, 1);
        self.sleepers.wake(&self.table, bay);
    }

    /// Takes the value of bay p, with the turn to fill it, and waits while the bay is empty.
    ///
    /// One step where the bay is full. Takes no memory.
    pub fn take<R: Wait>(&self, rt: &R, p: u8) -> (T, Turn<T>)
        requires { p < bay_count self.now }
        ensures { IsTaken T.tag self.now p result }
    {
        take_when_full(rt, &self.table, &self.sleepers, p as usize)
    }

    /// The bay of a set that names one bay alone, and None where the set names several or none. Constant.
    pub fn only(&self, set: PartSet) -> Option<u8>
        requires { (p : ℕ) → IsBitSet set p → p < bay_count self.now }
        ensures some { IfSome result (λ p. (p < bay_count self.now) × IsAlone set p) }
        ensures none { IfNone result ((p : ℕ) → IsAlone set p → ⊥) }
    {
        only_member(set, self.table.slot_count())
    }

    /// Takes the values of all bays of a set, and of no others, each with the turn of its bay. It takes them in rising
    /// order, and waits at each while it is empty.
    ///
    /// Out of memory has taken nothing: the list has its room before the first bay is taken, and behind that nothing can
    /// fail. One step for each member. Takes memory for eight values with their turns.
    pub fn gather<R: Wait>(
        &self,
        rt: &R,
        alloc: Global,
        set: PartSet,
    ) -> Result<Seq<(T, Turn<T>)>, NoMemory>
        requires { (p : ℕ) → IsBitSet set p → p < bay_count self.now }
        ensures ok { IfOk result (λ taken. IsGathered T.tag self.now set taken) }
    {
        // Instead of a push that may fail at each bay: so nobody has waited for a bay in vain.
        let list = Vec::with_capacity(alloc, self.table.slot_count())?;
        Ok(take_members(rt, &self.table, &self.sleepers, set, list))
    }

    /// Takes the value of each bay in rising order, and waits at each while it is empty. The bays are gone.
    ///
    /// One step for each bay. Takes no memory.
    pub fn close<R: Wait>(self, rt: &R) -> Seq<T>
        ensures { TagsFrom T.tag 0 result × (length result ≡ bay_count self) }
    {
        let Bays {
            table,
            sleepers,
            room,
        } = self;
        let Room { mut list } = room.into_inner();
        take_all(rt, &table, &sleepers, &mut list);
        Seq::from_vec(list)
    }
}

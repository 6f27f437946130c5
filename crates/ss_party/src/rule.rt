//! The rule of the bays, and what each step on them tells.
//!
//! A bay is a word and a slot of one `atomic_table`: the word is 1 where the slot is at home with a value, and else 0. The
//! rule holds between any two steps of any threads. These are the steps:
//!
//! - the table is made: `Bays::new`
//! - a value is taken out, where there is one, and a seat for its slot is made in the same step, so that no other seat is
//!   split: `take_if_full`, by `Takes`. It swaps the word with 0, so of two who take at the same time one finds 0 and has
//!   nothing
//! - a value is put in, and the seat ends there, so that it is joined with none: `Bays::put`, by `Gives`
//! - a thread sleeps while a word is 0, and is woken: `take_when_full`, and `Bays::put`
//! - all is taken out, and the table ends: `Bays::close`
use crate::tagged::Tagged;
use atomic_table::{Play, Table, TableRule};
use std::alloc::Global;
use std::marker::PhantomData;

/// What is in a bay belongs there.
pub struct BayRule<T> {
    of: PhantomData<T>,
}

impl<T: Tagged> TableRule<Option<T>, (), ()> for BayRule<T> {
    ghost use Rattle.ss_party.specs.Rule.{HasOwnValues};

    ghost holds = { λ _ s. HasOwnValues T.tag s };

    ghost first = { λ _. tt };
}

/// The value is taken out of a bay, which is empty from then on.
///
/// Whoever takes gets a new seat in the same step, instead of bringing one that is split and joined, because who has
/// taken nothing has nothing to show. So a call needs nothing but the bays.
pub struct Takes<T> {
    of: PhantomData<T>,
}

impl<T: Tagged> Play<Option<T>, ()> for Takes<T> {
    ghost use Rattle.ss_party.specs.Rule.{Took};

    ghost then = { Took T.tag };
}

/// A bay has a value again.
pub struct Gives;

impl<T> Play<Option<T>, ()> for Gives {
    ghost use Rattle.ss_party.specs.Rule.{Gave};

    ghost then = { Gave };
}

/// The words and the slots of the bays, side by side.
///
/// This, instead of a lock around each value, because `try_take` and `put` then wait for nobody, as their signatures
/// show, and who has taken a value has it as its own and not behind a guard.
pub type BayTable<T> = Table<Option<T>, (), (), BayRule<T>, Global>;

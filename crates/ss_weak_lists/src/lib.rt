//! Laws of weak lists: what is left of a list of which only clients' calls, pushes and installs were kept.
//!
//! Weak recovery logs what clients asked for, and runs the steps that this sets off anew. What such a log stands for is the
//! weak list of its calls, pushes and installs, which `ss_model` defines beside settling (`IsWeakList`): a settling, and then
//! each of them with a settling behind it. Other than a list that is logged whole, it may have its steps elsewhere than the run
//! had them, and its calls may come to something else. These laws say what stays all the same.
//!
//! - `specs/Pushes`: what the pushes of a list come to, and what this depends on. What clients asked for among entries
//!   (`asked_of`) is a word of `ss_model`
//! - `specs/WeakLists`: what a weak list holds, how it grows, and what a run is recovered to (`RecoversWeakly`)
//! - `specs/Stops`: where a weak replay stops, since no execution has a place from 2^60 on (`StopsBehind`, `PassesLast`)
//! - `laws`: that this is so. Each is the contract of a function that does nothing; `proofs/worked` meets their premises
//!
//! # Choices
//!
//! - That a list is recovered is one record with the weak list in it, instead of a law for each of its fields: whoever
//!   opens a store asks for all of them, of one list.
//! - What a push comes to is told by its source's next number, which no call, no step and no install changes. So the law of
//!   pushes is of any two lists with the same ones, of which a weak list may be one; nothing in it needs settling or ranks.
//! - A weak replay is said to stop at an entry also where the steps behind it would pass the last place, because an entry and
//!   its steps are one unit of recovery: without them the list isn't the weak one of the entries so far.
//! - What a weak list begins at is a whole database, of which an image keeps less; `KeptCarriesWeak` says that it doesn't
//!   matter which one is named.
#![tactic(auto)]

mod laws;

pub use laws::{
    kept_carries_weak, loops_pass_last, pushes_need_numbers, runs_recover_weakly, weak_lists_grow,
    weak_lists_hold_asked, weak_stops_once,
};

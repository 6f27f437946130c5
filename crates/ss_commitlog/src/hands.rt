//! Tokens go into the log's seat and come out again, for `desk`, `looking` and `notes`, with the lock held. None of it takes
//! memory: a token has no bytes, and the list that held the tokens keeps its room.

ghost use Rattle.std.specs.Prelude.{◌≡◌, ◌+◌, ◌<◌, ◌≤◌, ◌^◌, [], ◌∷◌, ◌++◌, map, take, length, vec_len, vec_capacity};
ghost use Rattle.ss_commitlog.specs.declared.role.Role.TheVariants.{Log};
ghost use Rattle.ss_commitlog.specs.Roles.{In};
ghost use Rattle.ss_commitlog.specs.Rule.{at_rest};
ghost use Rattle.ss_commitlog.specs.Meaning.{IsLegal};
ghost use Rattle.ss_commitlog.specs.Tokens.{joined, cut, token, log_view, roles_of, AllKnow, AllContinue, added};

use crate::rule::{Adds, First, LogSeat, LogTable, Looks, TakesIn};
use crate::token::{LogToken, Marks};
use ss_model::{Life, Listed};
use ss_value::Seq;
use std::alloc::Global;
use std::marker::PhantomData;
use std::mem::replace;

/// All tokens go into the log's seat, the last one first. Their list keeps its room.
pub(crate) fn take_in_all<I: Life>(
    table: &LogTable,
    seat: &mut LogSeat,
    tokens: &mut Vec<LogToken<I>>,
)
    requires table { (table.now.shared.table_id ≡ I.table) × (seat.old.table_id ≡ I.table) × (0 < I.table.words) }
    requires log { In Log seat.old.me.0.now.roles }
    ensures seat { (seat.new.table_id ≡ I.table) × (seat.new.me ≡ (joined seat.old.me.0 tokens.old.items, seat.old.me.1)) }
    ensures tokens { (tokens.new.items ≡ []) × (vec_capacity tokens.new ≡ vec_capacity tokens.old) }
{
    while let Some(token) = tokens.pop() {
        let LogToken { seat: other, of: _ } = token;
        table.shared.join_seat::<TakesIn>(seat, other);
    }
}

/// The first roles of a seat go to tokens, one each, which know what the seat knows.
pub(crate) fn give_back<I: Life>(
    table: &LogTable,
    seat: &mut LogSeat,
    tokens: &mut Vec<LogToken<I>>,
    count: usize,
)
    requires table { (table.now.shared.table_id ≡ I.table) × (seat.old.table_id ≡ I.table) × (0 < I.table.words) }
    requires roles { (count ≤ length seat.old.me.0.now.roles) × (seat.old.me.0 ≡ at_rest seat.old.me.0.now) }
    requires legal { IsLegal I.catalog I.parts I.clients I.limit I.opening seat.old.me.0.now.known }
    requires room { (tokens.old.items ≡ []) × (count ≤ vec_capacity tokens.old) }
    ensures seat { (seat.new.table_id ≡ I.table) × (seat.new.me ≡ (cut count seat.old.me.0, seat.old.me.1)) }
    ensures tokens { tokens.new.items ≡ map (token seat.old.me.0.now) (take count seat.old.me.0.now.roles) }
{
    for _i in 0..count {
        let other = table.shared.split_seat::<First>(seat);
        tokens.push_reserved(LogToken {
            seat: other,
            of: PhantomData,
        });
    }
}

/// The log's seat shows these tokens its list.
fn show_all<I: Life>(table: &LogTable, seat: &mut LogSeat, tokens: &mut Vec<LogToken<I>>)
    requires table { (table.now.shared.table_id ≡ I.table) × (seat.old.table_id ≡ I.table) × (0 < I.table.words) }
    requires log { seat.old.me ≡ (log_view seat.old.me.0.now.known seat.old.me.0.now.count seat.old.me.0.now.faults, []) }
    requires legal { IsLegal I.catalog I.parts I.clients I.limit I.opening seat.old.me.0.now.known }
    ensures table { seat.new.table_id ≡ I.table }
    ensures log { seat.new.me ≡ (log_view seat.old.me.0.now.known seat.new.me.0.now.count seat.new.me.0.now.faults, []) }
    ensures tokens { AllKnow seat.old.me.0.now.known tokens.old.items tokens.new.items
        × AllContinue I.catalog I.parts seat.old.me.0.now.known tokens.old.items }
{
    let count = tokens.len();
    take_in_all(table, seat, tokens);
    table.shared.load::<Looks>(seat, 0);
    give_back(table, seat, tokens, count);
}

/// The log's seat adds an entry, under these tokens' roles.
///
/// That the list is legal with the entry may rest on what the tokens know of the list before.
fn add_all<I: Life>(
    table: &LogTable,
    seat: &mut LogSeat,
    tokens: &mut Vec<LogToken<I>>,
    place: u64,
    listed: &Listed,
)
    requires table { (table.now.shared.table_id ≡ I.table) × (seat.old.table_id ≡ I.table) × (0 < I.table.words) }
    requires log { seat.old.me ≡ (log_view seat.old.me.0.now.known seat.old.me.0.now.count seat.old.me.0.now.faults, []) }
    requires legal { IsLegal I.catalog I.parts I.clients I.limit I.opening seat.old.me.0.now.known }
    requires place { (place ≡ table.now.shared.key.first + length seat.old.me.0.now.known) × (place < 2 ^ 60) }
    requires more { AllContinue I.catalog I.parts seat.old.me.0.now.known tokens.old.items
        → IsLegal I.catalog I.parts I.clients I.limit I.opening (added seat.old.me.0.now.known (roles_of tokens.old.items) listed.now) }
    ensures table { seat.new.table_id ≡ I.table }
    ensures log { seat.new.me
        ≡ (log_view (added seat.old.me.0.now.known (roles_of tokens.old.items) listed.now) seat.new.me.0.now.count seat.new.me.0.now.faults, []) }
    ensures tokens { AllKnow (added seat.old.me.0.now.known (roles_of tokens.old.items) listed.now) tokens.old.items tokens.new.items
        × AllContinue I.catalog I.parts seat.old.me.0.now.known tokens.old.items }
{
    let count = tokens.len();
    take_in_all(table, seat, tokens);
    table
        .shared
        .compare_exchange_with::<Adds>(seat, 0, place, place + 1, listed);
    give_back(table, seat, tokens, count);
}

/// The log's seat shows these marks its list. An empty list stands in their place meanwhile.
pub(crate) fn show_marks<I: Life>(
    table: &LogTable,
    seat: &mut LogSeat,
    alloc: Global,
    marks: &mut Marks<I>,
)
    requires table { (table.now.shared.table_id ≡ I.table) × (seat.old.table_id ≡ I.table) × (0 < I.table.words) }
    requires log { seat.old.me ≡ (log_view seat.old.me.0.now.known seat.old.me.0.now.count seat.old.me.0.now.faults, []) }
    requires legal { IsLegal I.catalog I.parts I.clients I.limit I.opening seat.old.me.0.now.known }
    ensures table { seat.new.table_id ≡ I.table }
    ensures log { seat.new.me ≡ (log_view seat.old.me.0.now.known seat.new.me.0.now.count seat.new.me.0.now.faults, []) }
    ensures marks { AllKnow seat.old.me.0.now.known marks.old marks.new × AllContinue I.catalog I.parts seat.old.me.0.now.known marks.old }
{
    let mut own = replace(marks, Seq::new(alloc)).into_vec();
    show_all(table, seat, &mut own);
    *marks = Seq::from_vec(own);
}

/// The log's seat adds an entry, under these marks' roles. An empty list stands in their place meanwhile.
pub(crate) fn add_marks<I: Life>(
    table: &LogTable,
    seat: &mut LogSeat,
    alloc: Global,
    marks: &mut Marks<I>,
    place: u64,
    listed: &Listed,
)
    requires table { (table.now.shared.table_id ≡ I.table) × (seat.old.table_id ≡ I.table) × (0 < I.table.words) }
    requires log { seat.old.me ≡ (log_view seat.old.me.0.now.known seat.old.me.0.now.count seat.old.me.0.now.faults, []) }
    requires legal { IsLegal I.catalog I.parts I.clients I.limit I.opening seat.old.me.0.now.known }
    requires place { (place ≡ table.now.shared.key.first + length seat.old.me.0.now.known) × (place < 2 ^ 60) }
    requires more { AllContinue I.catalog I.parts seat.old.me.0.now.known marks.old
        → IsLegal I.catalog I.parts I.clients I.limit I.opening (added seat.old.me.0.now.known (roles_of marks.old) listed.now) }
    ensures table { seat.new.table_id ≡ I.table }
    ensures log { seat.new.me
        ≡ (log_view (added seat.old.me.0.now.known (roles_of marks.old) listed.now) seat.new.me.0.now.count seat.new.me.0.now.faults, []) }
    ensures marks { AllKnow (added seat.old.me.0.now.known (roles_of marks.old) listed.now) marks.old marks.new
        × AllContinue I.catalog I.parts seat.old.me.0.now.known marks.old }
{
    let mut own = replace(marks, Seq::new(alloc)).into_vec();
    add_all(table, seat, &mut own, place, listed);
    *marks = Seq::from_vec(own);
}

//! Steps of one token or two, or of a note with all marks: those that show them the list, for `looking`, and `end_all`, by which
//! `Desk::close` takes all tokens for good, with the lock held; and `post` and `see`, for `log`, which need none.

ghost use Rattle.std.specs.Prelude.{◌≡◌, ◌⊎◌, ◌+◌, ◌<◌, ◌≤◌, ◌∷◌, [], length};
ghost use Rattle.ss_commitlog.specs.declared.role.Role.TheVariants.{Disk, Log};
ghost use Rattle.ss_commitlog.specs.Roles.{In};
ghost use Rattle.ss_commitlog.specs.Rule.{at_rest};
ghost use Rattle.ss_commitlog.specs.Meaning.{IsLegal};
ghost use Rattle.ss_commitlog.specs.Tokens.{joined, cut, token, log_view, known, head_or_reader, Knows, AllKnow, Continues, AllContinue, AllSaw, AllSeeAs};

use crate::hands::{give_back, take_in_all};
use crate::posted::Posted;
use crate::rule::{
    First, LogSeat, LogTable, Looks, NewReader, PostsCount, PostsFaults, SeesCount, SeesFaults,
    TakesIn,
};
use crate::token::{LogToken, Marks};
use ss_model::Life;
use ss_value::Seq;
use std::alloc::Global;
use std::marker::PhantomData;
use std::mem::replace;

/// Reads the two posted numbers.
pub(crate) fn see<I: Life>(table: &LogTable, token: &mut LogToken<I>) -> Posted
    requires { (table.now.shared.table_id ≡ I.table) × (I.table.words ≡ 3) }
    ensures seen { token.new ≡ known token.old.role token.old.list result.count result.faults }
    ensures more { (token.old.count ≤ result.count) × ((token.old.faults ≡ 0) ⊎ (token.old.faults ≡ result.faults)) }
    ensures disk { token.old.role ≡ Disk → (result.count ≡ token.old.count) × (result.faults ≡ token.old.faults) }
{
    let count = table.shared.load::<SeesCount>(&mut token.seat, 1);
    let faults = table.shared.load::<SeesFaults>(&mut token.seat, 2);
    Posted { count, faults }
}

/// Posts the two numbers, which the disk's token alone may do.
pub(crate) fn post<I: Life>(table: &LogTable, token: &mut LogToken<I>, count: u64, faults: u64)
    requires table { (table.now.shared.table_id ≡ I.table) × (I.table.words ≡ 3) }
    requires disk { token.old.role ≡ Disk }
    requires count { token.old.count ≤ count }
    requires faults { (token.old.faults ≡ 0) ⊎ (token.old.faults ≡ faults) }
    ensures { token.new ≡ known Disk token.old.list count faults }
{
    table.shared.store::<PostsCount>(&mut token.seat, 1, count);
    table
        .shared
        .store::<PostsFaults>(&mut token.seat, 2, faults);
}

/// A token goes into the log's seat.
fn take_in<I: Life>(table: &LogTable, seat: &mut LogSeat, token: LogToken<I>)
    requires table { (table.now.shared.table_id ≡ I.table) × (seat.old.table_id ≡ I.table) × (0 < I.table.words) }
    requires log { In Log seat.old.me.0.now.roles }
    ensures { (seat.new.table_id ≡ I.table) × (seat.new.me ≡ (joined seat.old.me.0 (token ∷ []), seat.old.me.1)) }
{
    let LogToken { seat: other, of: _ } = token;
    table.shared.join_seat::<TakesIn>(seat, other);
}

/// A token that is lent goes into the log's seat. A reader's note stands in its place until it comes out again.
fn take_in_lent<I: Life>(table: &LogTable, seat: &mut LogSeat, token: &mut LogToken<I>)
    requires table { (table.now.shared.table_id ≡ I.table) × (seat.old.table_id ≡ I.table) × (0 < I.table.words) }
    requires log { In Log seat.old.me.0.now.roles }
    requires legal { IsLegal I.catalog I.parts I.clients I.limit I.opening seat.old.me.0.now.known }
    ensures { (seat.new.table_id ≡ I.table) × (seat.new.me ≡ (joined seat.old.me.0 (token.old ∷ []), seat.old.me.1)) }
{
    let note = LogToken {
        seat: table.shared.split_seat::<NewReader>(seat),
        of: PhantomData,
    };
    take_in(table, seat, replace(token, note));
}

/// The first role of a seat goes to a token, which knows what the seat knows.
pub(crate) fn give_one<I: Life>(table: &LogTable, seat: &mut LogSeat) -> LogToken<I>
    requires table { (table.now.shared.table_id ≡ I.table) × (seat.old.table_id ≡ I.table) × (0 < I.table.words) }
    requires roles { (0 < length seat.old.me.0.now.roles) × (seat.old.me.0 ≡ at_rest seat.old.me.0.now) }
    requires legal { IsLegal I.catalog I.parts I.clients I.limit I.opening seat.old.me.0.now.known }
    ensures seat { (seat.new.table_id ≡ I.table) × (seat.new.me ≡ (cut 1 seat.old.me.0, seat.old.me.1)) }
    ensures token { result ≡ token seat.old.me.0.now (head_or_reader seat.old.me.0.now.roles) }
{
    let other = table.shared.split_seat::<First>(seat);
    LogToken {
        seat: other,
        of: PhantomData,
    }
}

/// A token sees the list.
pub(crate) fn show<I: Life>(table: &LogTable, seat: &mut LogSeat, token: &mut LogToken<I>)
    requires table { (table.now.shared.table_id ≡ I.table) × (seat.old.table_id ≡ I.table) × (0 < I.table.words) }
    requires log { seat.old.me ≡ (log_view seat.old.me.0.now.known seat.old.me.0.now.count seat.old.me.0.now.faults, []) }
    requires legal { IsLegal I.catalog I.parts I.clients I.limit I.opening seat.old.me.0.now.known }
    ensures log { (seat.new.table_id ≡ I.table) × (seat.new.me ≡ (log_view seat.old.me.0.now.known seat.new.me.0.now.count seat.new.me.0.now.faults, [])) }
    ensures token { Knows seat.old.me.0.now.known token.old token.new × Continues I.catalog I.parts seat.old.me.0.now.known token.old }
{
    take_in_lent(table, seat, token);
    table.shared.load::<Looks>(seat, 0);
    *token = give_one(table, seat);
}

/// Two tokens see the list, and each other's numbers.
pub(crate) fn show_two<I: Life>(
    table: &LogTable,
    seat: &mut LogSeat,
    mark: &mut LogToken<I>,
    note: &mut LogToken<I>,
)
    requires table { (table.now.shared.table_id ≡ I.table) × (seat.old.table_id ≡ I.table) × (0 < I.table.words) }
    requires log { seat.old.me ≡ (log_view seat.old.me.0.now.known seat.old.me.0.now.count seat.old.me.0.now.faults, []) }
    requires legal { IsLegal I.catalog I.parts I.clients I.limit I.opening seat.old.me.0.now.known }
    ensures log { (seat.new.table_id ≡ I.table) × (seat.new.me ≡ (log_view seat.old.me.0.now.known seat.new.me.0.now.count seat.new.me.0.now.faults, [])) }
    ensures tokens { AllKnow seat.old.me.0.now.known (mark.old ∷ note.old ∷ []) (mark.new ∷ note.new ∷ [])
        × AllContinue I.catalog I.parts seat.old.me.0.now.known (mark.old ∷ note.old ∷ []) }
    ensures one { (mark.new.count ≡ note.new.count) × (mark.new.faults ≡ note.new.faults) }
    ensures both { (mark.old.count ≤ note.new.count) × (mark.old.faults ≤ note.new.faults)
        × (note.old.count ≤ mark.new.count) × (note.old.faults ≤ mark.new.faults) }
{
    take_in_lent(table, seat, note);
    take_in_lent(table, seat, mark);
    table.shared.load::<Looks>(seat, 0);
    *mark = give_one(table, seat);
    *note = give_one(table, seat);
}

/// All these tokens and a note see the list, and each other's numbers.
fn show_with<I: Life>(
    table: &LogTable,
    seat: &mut LogSeat,
    tokens: &mut Vec<LogToken<I>>,
    note: &mut LogToken<I>,
)
    requires table { (table.now.shared.table_id ≡ I.table) × (seat.old.table_id ≡ I.table) × (0 < I.table.words) }
    requires log { seat.old.me ≡ (log_view seat.old.me.0.now.known seat.old.me.0.now.count seat.old.me.0.now.faults, []) }
    requires legal { IsLegal I.catalog I.parts I.clients I.limit I.opening seat.old.me.0.now.known }
    ensures log { (seat.new.table_id ≡ I.table) × (seat.new.me ≡ (log_view seat.old.me.0.now.known seat.new.me.0.now.count seat.new.me.0.now.faults, [])) }
    ensures tokens { AllKnow seat.old.me.0.now.known tokens.old.items tokens.new.items
        × AllContinue I.catalog I.parts seat.old.me.0.now.known tokens.old.items }
    ensures note { Knows seat.old.me.0.now.known note.old note.new × Continues I.catalog I.parts seat.old.me.0.now.known note.old }
    ensures see { AllSeeAs note.new tokens.new.items }
{
    let count = tokens.len();
    take_in_lent(table, seat, note);
    take_in_all(table, seat, tokens);
    table.shared.load::<Looks>(seat, 0);
    give_back(table, seat, tokens, count);
    *note = give_one(table, seat);
}

/// All these marks and a note see the list, and each other's numbers. An empty list stands in the marks' place meanwhile.
pub(crate) fn show_marks_with<I: Life>(
    table: &LogTable,
    seat: &mut LogSeat,
    alloc: Global,
    marks: &mut Marks<I>,
    note: &mut LogToken<I>,
)
    requires table { (table.now.shared.table_id ≡ I.table) × (seat.old.table_id ≡ I.table) × (0 < I.table.words) }
    requires log { seat.old.me ≡ (log_view seat.old.me.0.now.known seat.old.me.0.now.count seat.old.me.0.now.faults, []) }
    requires legal { IsLegal I.catalog I.parts I.clients I.limit I.opening seat.old.me.0.now.known }
    ensures log { (seat.new.table_id ≡ I.table) × (seat.new.me ≡ (log_view seat.old.me.0.now.known seat.new.me.0.now.count seat.new.me.0.now.faults, [])) }
    ensures marks { AllKnow seat.old.me.0.now.known marks.old marks.new × AllContinue I.catalog I.parts seat.old.me.0.now.known marks.old }
    ensures note { Knows seat.old.me.0.now.known note.old note.new × Continues I.catalog I.parts seat.old.me.0.now.known note.old }
    ensures see { AllSeeAs note.new marks.new }
{
    let mut own = replace(marks, Seq::new(alloc)).into_vec();
    show_with(table, seat, &mut own, note);
    *marks = Seq::from_vec(own);
}

/// All tokens go into the log's seat for good.
pub(crate) fn end_all<I: Life>(
    table: &LogTable,
    seat: &mut LogSeat,
    mut marks: Vec<LogToken<I>>,
    note: LogToken<I>,
)
    requires table { (table.now.shared.table_id ≡ I.table) × (seat.old.table_id ≡ I.table) × (0 < I.table.words) }
    requires log { seat.old.me ≡ (log_view seat.old.me.0.now.known seat.old.me.0.now.count seat.old.me.0.now.faults, []) }
    requires legal { IsLegal I.catalog I.parts I.clients I.limit I.opening seat.old.me.0.now.known }
    requires disk { note.role ≡ Disk }
    ensures marks { AllContinue I.catalog I.parts seat.old.me.0.now.known marks.items × Continues I.catalog I.parts seat.old.me.0.now.known note }
    ensures seen { AllSaw note marks.items }
{
    take_in(table, seat, note);
    take_in_all(table, seat, &mut marks);
    table.shared.load::<Looks>(seat, 0);
}

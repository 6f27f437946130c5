//! Whether a reply is the one that is waited for, compared by value. `slot` asks it with the slot's lock held.

ghost use Rattle.std.specs.Prelude.{◌≡◌, ◌↔◌, IsTrue};
ghost use Rattle.ss_model.specs.declared.entry.Entry.TheVariants.{Call, Push, Install};
ghost use Rattle.ss_model.specs.Report.{asked_entry};
ghost use Rattle.ss_lanes.specs.Owning.{IsOwn};

use crate::reply::Reply;
use crate::ticket::Ticket;
use ss_model::{Asked, Entry, Life};
use ss_value::{Name, Row, Rows, Seq};

/// Whether two rows are equal. Linear in the shorter one.
fn same_row(a: &Row, b: &Row) -> bool
    ensures { IsTrue result ↔ (a.now ≡ b.now) }
{
    a == b
}

/// Whether two lists of rows are equal. Linear in the shorter one.
fn same_rows(a: &Rows, b: &Rows) -> bool
    ensures { IsTrue result ↔ (a.now ≡ b.now) }
{
    a == b
}

/// Whether two names are equal.
fn same_name(a: &Name, b: &Name) -> bool
    ensures { IsTrue result ↔ (a.now ≡ b.now) }
{
    a.as_bytes() == b.as_bytes()
}

/// Whether an entry is this call. Linear in the arguments.
fn is_call(entry: &Entry, client: u8, index: u64, procedure: u16, args: &Row) -> bool
    ensures { IsTrue result ↔ (entry.now ≡ Call client index procedure args.now) }
{
    match entry {
        Entry::Call {
            client: by,
            index: number,
            procedure: called,
            args: given,
        } => *by == client && *number == index && *called == procedure && same_row(given, args),
        _ => false,
    }
}

/// Whether an entry is this push. Linear in the rows and the name.
fn is_push(
    entry: &Entry,
    client: u8,
    index: u64,
    stream: u16,
    source: &Name,
    seq: u64,
    rows: &Rows,
) -> bool
    ensures { IsTrue result ↔ (entry.now ≡ Push client index stream source.now seq rows.now) }
{
    match entry {
        Entry::Push {
            client: by,
            index: number,
            stream: into,
            source: from,
            seq: numbered,
            rows: given,
        } => {
            *by == client
                && *number == index
                && *into == stream
                && *numbered == seq
                && same_name(from, source)
                && same_rows(given, rows)
        }
        _ => false,
    }
}

/// Whether two texts are equal. Linear in the shorter one.
fn same_text(a: &Seq<u8>, b: &Seq<u8>) -> bool
    ensures { IsTrue result ↔ (a.now ≡ b.now) }
{
    a.as_slice() == b.as_slice()
}

/// Whether an entry is this install. Linear in the text.
fn is_install(entry: &Entry, client: u8, index: u64, procedure: u16, text: &Seq<u8>) -> bool
    ensures { IsTrue result ↔ (entry.now ≡ Install client index procedure text.now) }
{
    match entry {
        Entry::Install {
            client: by,
            index: number,
            procedure: of,
            text: given,
        } => *by == client && *number == index && *of == procedure && same_text(given, text),
        _ => false,
    }
}

/// Whether an entry is what a client asks for with the request of this index, in each value and name. Linear in these.
fn is_entry_of(entry: &Entry, client: u8, index: u64, what: &Asked) -> bool
    ensures { IsTrue result ↔ (entry.now ≡ asked_entry client index what.now) }
{
    match what {
        Asked::Call { procedure, args } => is_call(entry, client, index, *procedure, args),
        Asked::Push {
            stream,
            source,
            seq,
            rows,
        } => is_push(entry, client, index, *stream, source, *seq, rows),
        Asked::Install { procedure, text } => is_install(entry, client, index, *procedure, text),
    }
}

/// Whether a reply answers what was asked for with a ticket. Linear in the values and names of a listed entry.
pub(crate) fn is_own<I: Life>(reply: &Reply<I>, ticket: &Ticket, what: &Asked) -> bool
    ensures { IsTrue result ↔ IsOwn ticket.now what.now reply.now }
{
    if reply.ticket.client != ticket.client || reply.ticket.index != ticket.index {
        return false;
    }
    match &reply.said {
        Ok(placed) => {
            reply.ticket.count > ticket.count
                && reply.ticket.count - ticket.count == 1
                && is_entry_of(&placed.listed.entry, ticket.client, ticket.index, what)
        }
        Err(_) => reply.ticket.count == ticket.count,
    }
}

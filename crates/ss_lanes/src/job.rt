//! A client's job, which waits in an inbox: there it is a `Task::Job` of `ss_sched`, beside hints. A client's thread makes it,
//! and who takes it serves it.

ghost use Rattle.std.specs.Prelude.{◌≡◌, ◌<◌, true, length};
ghost use Rattle.ss_model.specs.Database.{fits_entry};
ghost use Rattle.ss_report_laws.specs.Replies.{is_of};
ghost use Rattle.ss_commitlog.specs.declared.role.Role.TheVariants.{Client};
ghost use Rattle.ss_lanes.specs.Mines.{mine_in};

use crate::ticket::Ticket;
use ss_commitlog::Mark;
use ss_model::{Entry, Life};

/// The entry that a client asks for, with the client's mark and the request's ticket.
///
/// It carries its entry, instead of what was asked for, because the partitions that it touches are read off the entry
/// before it is sent and again before it runs.
///
/// A job may be let go of, as a reply may, instead of having no `Drop`, because then inboxes could be given up only job
/// by job where memory is short or a hub is closed. So no clause says that an answer ever comes: who loses a job, or
/// puts it into another inbox, keeps each of them, and its client waits for ever.
#[derive(Drop)]
pub struct Job<I: Life> {
    /// The request's numbers.
    pub ticket: Ticket,
    /// What is asked for.
    pub entry: Entry,
    /// The client's mark.
    pub mark: Mark<I>,
    pub ghost client_is: { ticket.client < I.clients },
    pub ghost mark_is: { mark.role ≡ Client ticket.client },
    pub ghost counted: { ticket.count ≡ length (mine_in ticket.client I.first mark.list) },
    pub ghost own: { is_of ticket.client entry ≡ true },
    pub ghost fits: { fits_entry I.catalog entry ≡ true },
}

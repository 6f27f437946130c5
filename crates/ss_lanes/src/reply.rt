//! What comes back to a client: made by whoever served its job, put into the client's slot by the hub, and taken there by the
//! client.

ghost use Rattle.std.specs.Prelude.{◌≡◌};
ghost use Rattle.ss_commitlog.specs.declared.role.Role.TheVariants.{Client};
ghost use Rattle.ss_lanes.specs.Replies.{MaySay};

use crate::ticket::Ticket;
use ss_commitlog::{Mark, Placed, Unlisted};
use ss_model::Life;
use std::marker::Model;

/// A client's mark comes back, with the ticket and with what became of the request.
///
/// By its type a listed entry is the client's last one in the list that the mark knows. Others may stand behind it.
#[derive(Drop)]
pub struct Reply<I: Life> {
    /// The numbers that went out with the request, with as many entries of the client as the mark then knows.
    pub ticket: Ticket,
    /// The client's mark.
    pub mark: Mark<I>,
    /// What became of the request: where its entry stands, or why it stands nowhere.
    pub said: Result<Placed, Unlisted>,
}

impl<I: Life> Model for Reply<I> {
    ghost use Rattle.ss_lanes.specs.Replies.{ReplyView, IsReply};

    ghost Value = { ReplyView };

    ghost view = { λ r. record { ticket = r.ticket; mark = r.mark; said = r.said } };

    ghost invariant = { λ r. IsReply I.first I.limit r.ticket r.mark r.said };
}

/// The reply to what went out with this ticket. Takes no memory.
pub fn reply_of<I: Life>(ticket: Ticket, mark: Mark<I>, said: Result<Placed, Unlisted>) -> Reply<I>
    requires mark { mark.role ≡ Client ticket.client }
    requires may_say { MaySay I.first I.limit ticket mark.list said }
    ensures numbers { (result.ticket.client ≡ ticket.client) × (result.ticket.index ≡ ticket.index) }
    ensures moved { (result.mark ≡ mark) × (result.said ≡ said) }
{
    let count = match &said {
        Ok(_) => ticket.count + 1,
        Err(_) => ticket.count,
    };
    let Ticket { client, index, .. } = ticket;
    Reply {
        ticket: Ticket {
            client,
            index,
            count,
        },
        mark,
        said,
    }
}

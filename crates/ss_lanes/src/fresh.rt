//! Lanes before the first request, one for each client, of the client's mark and a note. `ss_opening` makes them; no thread has
//! them yet.

ghost use Rattle.std.specs.Prelude.{◌≡◌, ◌+◌, [], IfOk, OnOk};
ghost use Rattle.ss_commitlog.specs.declared.role.Role.TheVariants.{Client};
ghost use Rattle.ss_commitlog.specs.Rule.{numbered, reader};
ghost use Rattle.ss_commitlog.specs.Tokens.{at_opening};
ghost use Rattle.ss_lanes.specs.Lanes.{AreFresh, start_of};

use crate::lane::Lane;
use ss_commitlog::{Marks, Notes};
use ss_model::Life;
use ss_value::NoMemory;
use std::alloc::Global;

/// The number of the first request that a client makes here, of those that are given for some clients; 0 for others.
pub fn start_of(starts: &[u64], client: usize) -> u64
    ensures { result ≡ start_of starts.now client }
{
    match starts.get(client) {
        Some(start) => *start,
        None => 0,
    }
}

/// A lane for each client, with its mark and one of the last notes. The next request of each has its number in `starts`, 0 where
/// there is none. Takes room for as many lanes; NoMemory is its one error.
pub fn fresh_lanes<I: Life>(
    alloc: Global,
    clients: u8,
    starts: &[u64],
    marks: Marks<I>,
    notes: &mut Notes<I>,
) -> Result<Vec<Lane<I>>, NoMemory>
    requires clients { clients ≡ I.clients }
    requires marks { marks ≡ at_opening I.first (numbered Client 0 I.clients []) }
    requires notes { notes.old ≡ at_opening I.first (numbered reader 0 (I.parts + I.clients) []) }
    ensures lanes { IfOk result (λ lanes. AreFresh I.first I.clients starts.now lanes.items) }
    ensures notes { OnOk result (notes.new ≡ at_opening I.first (numbered reader 0 I.parts [])) }
{
    let mut lanes = Vec::with_capacity(alloc, usize::from(clients))?;
    let mut left = marks.into_vec().into_iter();
    for client in 0..clients {
        let Some(mark) = left.next() else {
            unreachable!()
        };
        let Some(note) = notes.pop() else {
            unreachable!()
        };
        let start = start_of(starts, usize::from(client));
        lanes.push_reserved(Lane::new(alloc, client, start, mark, note));
    }
    Ok(lanes)
}

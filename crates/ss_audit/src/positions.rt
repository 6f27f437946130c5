//! Where the requests of clients stand, found by client and index.

ghost use Rattle.std.specs.Prelude.{◌≡◌, ◌<◌, ℕ, IfOk, OnOk, Some, length, slice_get};
ghost use Rattle.ss_audit.specs.declared.positions.Placed.{Placed};
ghost use Rattle.ss_audit.specs.Positions.{Finds, HasToo, position_in};

use ss_value::NoMemory;
use std::alloc::Global;
use std::collections::BTreeMap;

/// A client's request, by its index among its client's from 0, and where it stands in some list.
#[derive(Clone, Copy, Drop)]
pub(crate) struct Placed {
    pub client: u8,
    pub index: u64,
    pub position: usize,
}

/// Positions by client and index.
pub(crate) type Positions = BTreeMap<(u8, u64), usize>;

/// The request at this place of these.
fn placed_at(requests: &[Placed], at: usize) -> Placed
    requires { at < length requests.now }
    ensures { (p : Placed) → slice_get requests.now at ≡ Some p → result ≡ p }
{
    requests[at]
}

/// Notes where a request stands, also where another position of it is noted.
fn note_position(first: &mut Positions, placed: Placed) -> Result<(), NoMemory>
    ensures { OnOk result (HasToo placed first.old first.new) }
{
    first.insert((placed.client, placed.index), placed.position)?;
    Ok(())
}

/// The first position of each request among these. Costs a search for each of them.
pub(crate) fn first_positions(alloc: Global, requests: &[Placed]) -> Result<Positions, NoMemory>
    ensures { IfOk result (Finds requests.now) }
{
    let mut first = BTreeMap::new(alloc);
    // From the last to the first, so that of several the first stays.
    for at in (0..requests.len()).rev() {
        note_position(&mut first, placed_at(requests, at))?;
    }
    Ok(first)
}

/// The position of a client's request of this index, if it is there. Logarithmic in the requests.
pub(crate) fn position(first: &Positions, client: u8, index: u64) -> Option<usize>
    ensures { result ≡ position_in first.now client index }
{
    first.get(&(client, index)).copied()
}

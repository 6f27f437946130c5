//! Room for what a close collects, made by `ss_opening` before the first request, so that the close needs no memory for it.

ghost use Rattle.std.specs.Prelude.{◌≡◌, ◌≤◌, [], length, vec_capacity};

use ss_commitlog::Mark;
use ss_model::{Answer, Life};
use ss_value::{NoMemory, Seq};
use std::alloc::Global;

/// The most marks that a close has: one for each partition and each client.
const MARKS: usize = 16;

/// Room for the marks of all partitions and clients, and for the answers of all clients. So a close can always hand over the list.
#[derive(Drop)]
pub struct Room<I: Life> {
    /// The marks so far: none.
    pub marks: Vec<Mark<I>>,
    /// The answers so far: none.
    pub answers: Vec<Seq<Answer>>,
    pub ghost no_marks: { marks.items ≡ [] },
    pub ghost for_marks: { 16 ≤ vec_capacity marks },
    pub ghost no_answers: { answers.items ≡ [] },
    pub ghost for_answers: { I.clients ≤ vec_capacity answers },
}

impl<I: Life> Room<I> {
    /// Room for the answers of so many clients.
    pub fn new(alloc: Global, clients: u8) -> Result<Room<I>, NoMemory>
        requires { clients ≡ I.clients }
    {
        let marks = Vec::with_capacity(alloc, MARKS)?;
        let answers = Vec::with_capacity(alloc, usize::from(clients))?;
        Ok(Room { marks, answers })
    }
}

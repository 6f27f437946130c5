//! The answers to all clients, in the order of their requests.

ghost use Rattle.std.specs.Prelude.{◌≡◌, IfOk, drop, get_or, slice_set};
ghost use Rattle.ss_report_laws.specs.Replies.{answers_of};
ghost use Rattle.ss_report.specs.Lent.{lists_behind};

use ss_model::Answer;
use ss_value::{NoMemory, Seq};
use std::alloc::Global;

/// The answers to each client that are not yet in the report.
#[derive(Drop)]
pub struct Unwritten<'a> {
    lists: Vec<&'a [Answer]>,
}

impl<'a> Unwritten<'a> {
    /// All answers to each client, lent and not copied.
    pub fn all(alloc: Global, answers: &'a [Seq<Answer>]) -> Result<Unwritten<'a>, NoMemory>
        ensures { IfOk result (λ left. lists_behind left.lists.items ≡ answers.now) }
    {
        let mut lists = Vec::new(alloc);
        for to_client in answers {
            lists.push(to_client.as_slice())?;
        }
        Ok(Unwritten { lists })
    }

    /// Takes the next answer to a client, in constant time; `missing` where none is left, or where there is no such client.
    pub fn next(&mut self, client: u8, missing: &'a Answer) -> &'a Answer
        ensures answer { result.now ≡ get_or (answers_of (lists_behind self.old.lists.items) client) 0 missing.now }
        ensures rest { lists_behind self.new.lists.items
            ≡ slice_set (lists_behind self.old.lists.items) client (drop 1 (answers_of (lists_behind self.old.lists.items) client)) }
    {
        let client = usize::from(client);
        if client < self.lists.len() {
            let to_client = self.lists[client];
            if let Some((answer, rest)) = to_client.split_first() {
                self.lists[client] = rest;
                return answer;
            }
        }
        missing
    }
}

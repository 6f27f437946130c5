//! What a run has come to where a fault of its disk ended an incarnation, and where it goes on from.

ghost use Rattle.std.specs.Prelude.{◌≡◌, ◌≤◌, ◌+◌, length, map, IfOk, IsTrue, ◌↔◌};
ghost use Rattle.ss_report_laws.specs.Resuming.{resume_at};
ghost use Rattle.ss_resume.specs.Pasts.{JoinsAt};

use crate::joining::{cut_and_joined, joined_answers};
use crate::staying::resume_at;
use ss_model::{Answer, Listed};
use ss_value::{NoMemory, Seq};
use std::alloc::Global;

/// What a run has come to where a fault of its disk ended an incarnation.
#[derive(Drop)]
pub struct Past {
    /// The list.
    pub list: Seq<Listed>,
    /// The place of its first entry.
    pub first: u64,
    /// The answers of each client, by number.
    pub answers: Seq<Seq<Answer>>,
    /// All places below this count are receipted.
    pub receipted: u64,
}

impl Past {
    /// Whether an opening at this place is one behind this past: all that is receipted stands below it, and nothing that
    /// never ran.
    pub fn may_go_on_at(&self, place: u64) -> bool
        ensures { IsTrue result ↔ ((self.now.first ≤ place) × (self.now.receipted ≤ place) × (place ≤ self.now.first + length self.now.list)) }
    {
        self.first <= place
            && self.receipted <= place
            && place - self.first <= self.list.len() as u64
    }

    /// The number of the request from which each client goes on behind an opening at a place. Looks at the answers that stay,
    /// and takes room for a number for each client.
    ///
    /// Neither the list nor the answers are cut yet, so that a run that can't go on may still tell them.
    pub fn starts_at(&self, alloc: Global, place: u64) -> Result<Seq<u64>, NoMemory>
        ensures { IfOk result (λ starts. starts ≡ map (resume_at place) self.now.answers) }
    {
        let mut starts = Vec::with_capacity(alloc, self.answers.len())?;
        for answers in self.answers.as_slice() {
            starts.push_reserved(resume_at(answers.as_slice(), place) as u64);
        }
        Ok(Seq::from_vec(starts))
    }

    /// What ran behind an opening at a place joins this past: list and answers go back to what stays there, and those of what
    /// ran follow. A client may be in one of the two alone: then it has no answers in the other.
    ///
    /// Entries and answers are moved and never copied. Linear in what is cut off and in what is added; besides, it looks at each
    /// answer that stays, and at no entry that stays. Out of memory loses the past with what ran.
    pub fn with(
        self,
        alloc: Global,
        place: u64,
        list: Seq<Listed>,
        answers: Seq<Seq<Answer>>,
        receipted: u64,
    ) -> Result<Past, NoMemory>
        requires place { (self.first ≤ place) × (place ≤ self.first + length self.list) }
        ensures { IfOk result (JoinsAt place self list answers receipted) }
    {
        let Past {
            list: entries,
            first,
            answers: earlier,
            receipted: _,
        } = self;
        let list = cut_and_joined(entries, (place - first) as usize, list)?;
        let answers = joined_answers(alloc, place, earlier, answers)?;
        Ok(Past {
            list,
            first,
            answers,
            receipted,
        })
    }
}

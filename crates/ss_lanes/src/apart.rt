//! Lanes that the engine's close takes apart when no client asks any more: their marks and answers, in lists that have their
//! room already. It touches no lock.

ghost use Rattle.std.specs.Prelude.{◌≡◌, ◌≤◌, ◌+◌, ◌++◌, [], map, length, vec_capacity};
ghost use Rattle.ss_lanes.specs.Apart.{AreMarksOf};
ghost use Rattle.ss_lanes.specs.Lanes.{LaneView};

use crate::lane::Lane;
use ss_commitlog::{Mark, Marks, Note};
use ss_model::{Answer, Life};
use ss_value::Seq;

/// The marks and the answers of lanes, into lists that have room for them, and the note of the last lane. Takes no memory.
pub fn take_apart<I: Life>(
    lanes: Vec<Lane<I>>,
    mut marks: Vec<Mark<I>>,
    mut answers: Vec<Seq<Answer>>,
) -> (Vec<Mark<I>>, Vec<Seq<Answer>>, Note<I>)
    requires some { 1 ≤ length lanes.items }
    requires marks { (marks.items ≡ []) × (length lanes.items ≤ vec_capacity marks) }
    requires answers { (answers.items ≡ []) × (length lanes.items ≤ vec_capacity answers) }
    ensures marks { AreMarksOf I.first lanes.items result.0.items × (vec_capacity result.0 ≡ vec_capacity marks) }
    ensures answers { result.1.items ≡ map (λ (lane : LaneView). lane.answers) lanes.items }
{
    let mut last = None;
    for lane in lanes {
        let Lane {
            mark,
            note,
            answers: replies,
            ..
        } = lane;
        marks.push_reserved(mark);
        answers.push_reserved(replies.into_seq());
        last = Some(note);
    }
    let Some(note) = last else { unreachable!() };
    (marks, answers, note)
}

/// The marks of partitions behind others, in a list that has room for them. Takes no memory.
pub fn with_parts<I: Life>(mut marks: Vec<Mark<I>>, parts: Marks<I>) -> Marks<I>
    requires { length marks.items + length parts ≤ vec_capacity marks }
    ensures { result ≡ marks.items ++ parts }
{
    for mark in parts.into_vec() {
        marks.push_reserved(mark);
    }
    Seq::from_vec(marks)
}

//! Which answers stay where the list is cut at a place, for `past` and `joining`.

ghost use Rattle.std.specs.Prelude.{◌≡◌};
ghost use Rattle.ss_report_laws.specs.Resuming.{resume_at, stays};

use ss_model::Answer;

/// Whether an answer stays where the list is cut at a place: it tells of an entry below it, or that there was no memory.
fn stays(answer: &Answer, place: u64) -> bool
    ensures { result ≡ stays place answer.now }
{
    match answer {
        Answer::Listed { place: at, .. } => *at < place,
        Answer::NoMemory => true,
        Answer::ListFull { .. } | Answer::Halted { .. } => false,
    }
}

/// The number of the request from which a client goes on where the list is cut at a place: of the first whose answer doesn't
/// stay, and of the first without an answer where all stay. Linear in the answers that stay, at which it looks alone.
pub(crate) fn resume_at(answers: &[Answer], place: u64) -> usize
    ensures { result ≡ resume_at place answers.now }
{
    for (number, answer) in answers.iter().enumerate() {
        if !stays(answer, place) {
            return number;
        }
    }
    answers.len()
}

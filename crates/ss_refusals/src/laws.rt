//! An input has one answer: it starts, or it has one refusal.
//!
//! Relations say what an input's answer is, since one says what a catalogue's value is read as. The laws here say that
//! these relations exclude each other and that each gives one answer at most. They are the contract of a function that
//! does nothing: it only calls the laws of a catalogue's value and of a request's, which are such functions too.

ghost use Rattle.ss_refusals.specs.Inputs.{HasOneStart, StartsOrRefused, HasOneRefusal};

use ss_catalog_requests::a_request_has_one_answer;
use ss_nest::a_nested_value_has_one_answer;

/// An input starts with one catalogue and one list of requests, or it is refused and has one refusal; out of memory
/// and a fault of the source say nothing of it.
pub fn an_input_has_one_answer()
    ensures start { HasOneStart }
    ensures either { StartsOrRefused }
    ensures refusal { HasOneRefusal }
{
    a_nested_value_has_one_answer();
    a_request_has_one_answer();
}

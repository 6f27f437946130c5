//! A value has one answer as a request: it asks for one, or it is refused.
//!
//! The laws are the contract of a function that does nothing, as those of bodies are, on which they stand.

ghost use Rattle.ss_catalog_requests.specs.Answers.{HasOneRequest, IsAskedOrRefused, HasOneRequestRefusal, AsksWithoutSpares, RefusesWithoutSpares};

use ss_nest::a_nested_body_has_one_answer;

/// A value asks for one request at most; one that asks for a request has no refusal but `NoMemory`; a value has one
/// other refusal at most; and which bodies may be installed already makes no difference to either.
pub fn a_request_has_one_answer()
    ensures request { HasOneRequest }
    ensures either { IsAskedOrRefused }
    ensures refusal { HasOneRequestRefusal }
    ensures asked_aside { AsksWithoutSpares }
    ensures refused_aside { RefusesWithoutSpares }
{
    a_nested_body_has_one_answer();
}

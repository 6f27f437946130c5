//! A value has one answer as a catalogue with nests, and one as a body for it: it reads as one, or it is refused.
//!
//! As in `ss_catalog`, each law is the contract of a function that does nothing.

ghost use Rattle.ss_nest.specs.Answers.{HasOneNested, IsNestedOrRefused, HasOneNestedRefusal};
ghost use Rattle.ss_nest.specs.Bodies.{HasOneNestedBody, IsNestedBodyOrRefused, HasOneNestedBodyRefusal, NestedBodiesMayStand};

use ss_catalog::{a_body_has_one_answer, a_value_has_one_answer, what_reads_is_accepted};
use ss_model_laws::accepted_in_place;
use ss_nest_laws::nested_is_accepted;

/// A value reads as one catalogue with nests at most; one that reads has no refusal but `NoMemory`; and a value has one
/// other refusal at most.
pub fn a_nested_value_has_one_answer()
    ensures catalog { HasOneNested }
    ensures either { IsNestedOrRefused }
    ensures refusal { HasOneNestedRefusal }
{
    a_value_has_one_answer();
}

/// A value reads as one body of a procedure at most; one that reads has no refusal but `NoMemory`; a value has one other
/// refusal at most; and the procedure may have each body that a value reads as, beside the nests.
pub fn a_nested_body_has_one_answer()
    ensures body { HasOneNestedBody }
    ensures either { IsNestedBodyOrRefused }
    ensures refusal { HasOneNestedBodyRefusal }
    ensures stands { NestedBodiesMayStand }
{
    a_value_has_one_answer();
    a_body_has_one_answer();
    what_reads_is_accepted();
    accepted_in_place();
    nested_is_accepted();
}

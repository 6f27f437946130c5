//! A value has one answer as a catalogue, and one as a body of a procedure: it reads as one, or it is refused.
//!
//! What a value reads as and why it is refused are relations, since the grammar of SQL is one. The laws here say that
//! the two exclude each other, and that each of them gives one answer at most. They are the contract of a function that
//! does nothing: it only calls the laws of texts and of typing, which are such functions too.

ghost use Rattle.ss_catalog.specs.Answers.{HasOneCatalog, IsReadOrRefused, HasOneRefusal};
ghost use Rattle.ss_catalog.specs.Bodies.{HasOneBody, IsBodyOrRefused, HasOneBodyRefusal, BodiesMayStand};

use crate::read::what_reads_is_accepted;
use ss_model_laws::accepted_in_place;
use ss_sql_parse::a_text_has_one_answer;
use ss_sql_type::a_tree_has_one_answer;

/// A value reads as one catalogue at most; one that reads has no refusal but `NoMemory`; and a value has one other
/// refusal at most.
pub fn a_value_has_one_answer()
    ensures catalog { HasOneCatalog }
    ensures either { IsReadOrRefused }
    ensures refusal { HasOneRefusal }
{
    a_text_has_one_answer();
    a_tree_has_one_answer();
}

/// A value reads as one body of a procedure at most; one that reads has no refusal but `NoMemory`; a value has one other
/// refusal at most; and the procedure may have each body that a value reads as.
pub fn a_body_has_one_answer()
    ensures body { HasOneBody }
    ensures either { IsBodyOrRefused }
    ensures refusal { HasOneBodyRefusal }
    ensures stands { BodiesMayStand }
{
    a_text_has_one_answer();
    a_tree_has_one_answer();
    what_reads_is_accepted();
    accepted_in_place();
}

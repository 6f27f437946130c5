//! Laws of typing, the contract of a function that does nothing.

ghost use Rattle.ss_sql_type.specs.Laws.{OneRefusal, RefusedOrTyped};

/// A tree has one answer: its faults have one least at most, and none where it has no fault.
///
/// Its typed tree is a function of scope and tree, so there is no other.
pub fn a_tree_has_one_answer()
    ensures refusal { OneRefusal }
    ensures either { RefusedOrTyped }
{}

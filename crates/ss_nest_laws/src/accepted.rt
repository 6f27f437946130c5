//! A catalogue with nests is one that may run.

ghost use Rattle.ss_model.specs.Nests.{NestedIsAccepted};

/// An accepted catalogue in which some procedures are made nests is accepted.
pub fn nested_is_accepted()
    ensures { NestedIsAccepted }
{}

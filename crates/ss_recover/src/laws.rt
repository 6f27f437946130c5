//! A disk is empty, or a store of one mode and one catalogue, or has one first fault.
//!
//! So each refusal of recovery comes exactly where it says: what is recovered, and what is refused, carry which of these a disk is.

ghost use Rattle.ss_recover.specs.Laws.{EmptyHasNoFault, HasOneFault, NamedStopFurthest, PassesInAll, StoreHasNoFault, StoreIsOne};

use ss_model_laws::{settling_terminates, spares_aside};
use ss_nest::a_nested_body_has_one_answer;
use ss_snapshot::bytes_have_one_answer;
use ss_weak_lists::{kept_carries_weak, weak_lists_grow, weak_stops_once};

/// An empty disk has no fault, and no more has a store; a store is of one mode and one catalogue, bodies to be installed aside,
/// and another disk has one first fault at most.
pub fn a_disk_has_one_fault()
    ensures empty { EmptyHasNoFault }
    ensures store { StoreHasNoFault }
    ensures one { StoreIsOne }
    ensures fault { HasOneFault }
{
    bytes_have_one_answer();
    weak_stops_once();
}

/// Where entries stop behind an image, in a catalogue that has each body that they install and that any of its text has, they stop
/// no later whatever bodies may be installed; and where settling the image passes the last place, it does so with any.
///
/// So what doesn't replay once the bodies are added that the entries name is foreign, and no other bodies would help.
pub(crate) fn none_gets_further()
    ensures entry { NamedStopFurthest }
    ensures settling { PassesInAll }
{
    spares_aside();
    settling_terminates();
    a_nested_body_has_one_answer();
    bytes_have_one_answer();
    weak_stops_once();
    kept_carries_weak();
    weak_lists_grow();
}

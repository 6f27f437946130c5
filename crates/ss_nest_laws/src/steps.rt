//! A nest is what its members are, one after another.

ghost use Rattle.ss_model.specs.Nests.{NestsRunAsMembers, NestsStandThere};
ghost use Rattle.ss_nest_laws.specs.Steps.{NestStepsRunMembers, NestsKeepTheirBodies};

/// A nest's run as one procedure is the run of its members, one after another.
pub fn nests_run_as_members()
    ensures { NestsRunAsMembers }
{}

/// In a catalogue with nests each nest has the number that its first member counts to.
pub fn nests_stand_there()
    ensures { NestsStandThere }
{}

/// A nest has its own body in every database: no other can be installed for it.
pub fn nests_keep_their_bodies()
    ensures { NestsKeepTheirBodies }
{}

/// A step of a nest runs its members, one after another, on the next batch of each input of the first.
pub fn nest_steps_run_members()
    ensures { NestStepsRunMembers }
{}

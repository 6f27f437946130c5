//! Laws of the definitions, each the contract of a function that does nothing.

ghost use Rattle.ss_shard.specs.Laws.{HoldsItself, CarriedToEach};

/// A shard of a catalogue stands for its own tables and windows.
pub fn holds_itself()
    ensures { HoldsItself }
{}

/// An entry comes to the same on every database that a shard stands for: the same outcome, batches, counts and next numbers.
/// And where a shard has the tables and windows that the entry leaves on the shard's own database, it stands for what the
/// entry leaves on each.
pub fn carried_to_each()
    ensures { CarriedToEach }
{}

//! All partitions that an entry touches.

ghost use Rattle.std.specs.Prelude.{◌≤◌, ◌<◌, ◌==◌, ◌%◌, nat_lt, slice_get, ℕ};
ghost use Rattle.std.specs.List.{list_any};
ghost use Rattle.ss_model.specs.declared.entry.Entry.TheVariants.{Step as StepEntry};
ghost use Rattle.ss_model.specs.Partitions.{in_touch_set, procedure_touches, touches};
ghost use Rattle.ss_partition.specs.PartSets.{HasJust};

use crate::at_home::border_home;
use crate::rows::column_partition;
use ss_model::{Catalog, Entry, Touch};
use ss_value::{PartSet, Value};

/// The set of one partition.
fn one_partition(partition: u8) -> PartSet
    requires { partition < 8 }
    ensures { HasJust result (λ p. p == partition) }
{
    let mut set = PartSet::empty();
    set.insert(partition);
    set
}

/// The set of the partitions of these parts.
fn listed_partitions(listed: &[u8], parts: u8) -> PartSet
    requires some { 1 ≤ parts }
    requires few { parts ≤ 8 }
    ensures { HasJust result (λ p. list_any (λ part. p == part % parts) listed.now) }
{
    let mut set = PartSet::empty();
    for part in listed {
        set.insert(*part % parts);
    }
    set
}

/// The set of all partitions that run.
fn all_partitions(parts: u8) -> PartSet
    requires { parts ≤ 8 }
    ensures { HasJust result (λ p. nat_lt p parts) }
{
    let mut set = PartSet::empty();
    for partition in 0..parts {
        set.insert(partition);
    }
    set
}

/// The partitions of a touch set.
fn touched_by(touch: &Touch, args: &[Value], parts: u8) -> PartSet
    requires some { 1 ≤ parts }
    requires few { parts ≤ 8 }
    ensures { HasJust result (in_touch_set parts touch.now args.now) }
{
    match touch {
        Touch::Part(part) => one_partition(*part % parts),
        Touch::Arg(argument) => one_partition(column_partition(
            args,
            usize::from(*argument),
            parts,
        )),
        Touch::Multi(listed) => listed_partitions(listed.as_slice(), parts),
        Touch::All => all_partitions(parts),
    }
}

/// The partitions of the touch set of the procedure of this number.
fn touched_by_procedure(catalog: &Catalog, procedure: u16, args: &[Value], parts: u8) -> PartSet
    requires some { 1 ≤ parts }
    requires few { parts ≤ 8 }
    ensures { HasJust result (procedure_touches parts (slice_get catalog.now.procedures procedure) args.now) }
{
    match catalog.procedures.get(usize::from(procedure)) {
        Some(procedure) => touched_by(&procedure.touch, args, parts),
        None => PartSet::empty(),
    }
}

/// The partitions that each step of a procedure touches, of so many, whatever its batch is. Linear in the parts that its touch set
/// lists.
pub fn procedure_touch_set(catalog: &Catalog, procedure: u16, parts: u8) -> PartSet
    requires some { 1 ≤ parts }
    requires few { parts ≤ 8 }
    ensures { (batch : ℕ) → HasJust result (touches catalog.now parts (StepEntry procedure batch)) }
{
    touched_by_procedure(catalog, procedure, &[], parts)
}

/// The partitions that an entry touches, of so many. Linear in the parts that a touch set lists, and for a push in the
/// procedures and their inputs.
pub fn touch_set(catalog: &Catalog, entry: &Entry, parts: u8) -> PartSet
    requires some { 1 ≤ parts }
    requires few { parts ≤ 8 }
    ensures { HasJust result (touches catalog.now parts entry.now) }
{
    match entry {
        Entry::Call {
            procedure,
            args,
            ..
        } => touched_by_procedure(catalog, *procedure, args.as_slice(), parts),
        Entry::Push { stream, .. } => one_partition(border_home(catalog, *stream, parts)),
        Entry::Step { procedure, .. } => touched_by_procedure(catalog, *procedure, &[], parts),
        Entry::Install { .. } => all_partitions(parts),
    }
}

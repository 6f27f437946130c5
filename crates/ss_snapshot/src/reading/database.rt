//! The database that an image stands for, from the bytes behind its catalogue's text.

ghost use Rattle.std.specs.Prelude.{◌≡◌, ◌≤◌, ◌^◌, [], map, IfErr, IfOk};
ghost use Rattle.std.specs.FinMap as finmap;
ghost use Rattle.ss_model.specs.Accepted.{Accepted};
ghost use Rattle.ss_model.specs.Database.{Database as Model};
ghost use Rattle.ss_standing.specs.ImageForm.{bodies_of, to_the_end};
ghost use Rattle.ss_shard.specs.Bodies.{HasBodies, texts_of};
ghost use Rattle.ss_shard.specs.Contents.{tables_of};
ghost use Rattle.ss_shard.specs.Databases.{StandsFor};
ghost use Rattle.ss_shard.specs.Parts.{IsWholeShard};
ghost use Rattle.ss_snapshot.specs.declared.reading.fields.PartError.TheVariants.{NoMemory};
ghost use Rattle.ss_snapshot.specs.Beside.{as_beside, but_bodies_of, with_beside};
ghost use Rattle.ss_snapshot.specs.Bodies.{GrowsTo, IsFurthest, UnlessMemory};
ghost use Rattle.ss_snapshot.specs.Images.{RefusesRest};
ghost use Rattle.ss_snapshot.specs.Own.{IsReadFromItsText};
ghost use Rattle.ss_snapshot.specs.Parts.{Reads};
ghost use Rattle.ss_snapshot.specs.Read.{IsKeptBeside, IsReadDatabase};
ghost use Rattle.ss_snapshot.specs.Windows.{AreRestored};

use crate::reading::bodies::bodies_in;
use crate::reading::fields::PartError;
use crate::reading::image::{Beside, Progress, but_bodies_in};
use crate::reading::resumed::resumed_streams;
use ss_model::Catalog;
use ss_nest::a_nested_value_has_one_answer;
use ss_shard::{Database, Shard, opening};
use ss_standing::images_are_exact;
use ss_value::Seq;
use std::alloc::Global;

/// A shard of a catalogue before the first execution.
fn opened_shard(alloc: Global, catalog: &Catalog, partitions: u8) -> Result<Shard, PartError>
    requires accepted { Accepted catalog.now }
    requires some { 1 ≤ partitions }
    requires few { partitions ≤ 8 }
    ensures whole { IfOk result (IsWholeShard catalog.now partitions) }
    ensures empty { IfOk result (λ shard. tables_of shard.tables ≡ map (λ d. finmap.empty) catalog.now.tables) }
    ensures memory { IfErr result (λ e. e ≡ NoMemory) }
{
    match opening(alloc, catalog, partitions) {
        Ok(database) => Ok(database.whole),
        Err(_) => Err(PartError::NoMemory),
    }
}

/// A shard with the tables of an image, and what the image has beside them, but for the bodies.
fn shard_and_beside_in<'a>(
    alloc: Global,
    bytes: &'a [u8],
    catalog: &Catalog,
    first: u64,
    partitions: u8,
) -> Result<((Shard, Beside), &'a [u8]), PartError>
    requires accepted { Accepted catalog.now }
    requires some { 1 ≤ partitions }
    requires few { partitions ≤ 8 }
    ensures read { Reads (λ x. ((tables_of x.0.0.tables, as_beside x.0.1), x.1.now)) result (but_bodies_of catalog.now first bytes.now) }
    ensures whole { IfOk result (λ x. IsWholeShard catalog.now partitions x.0.0) }
    ensures restored { IfOk result (λ x. AreRestored catalog.now.windows x.0.1.windows) }
{
    let mut whole = opened_shard(alloc, catalog, partitions)?;
    let (beside, rest) = but_bodies_in(alloc, bytes, catalog, first, &mut whole)?;
    Ok(((whole, beside), rest))
}

/// The numbers of the bodies of all procedures in an image of this form, behind which the bytes end. The bodies that aren't
/// the procedures' own join those to be installed.
fn last_bodies_in(
    alloc: Global,
    bytes: &[u8],
    catalog: &mut Catalog,
    bodies: bool,
) -> Result<Seq<usize>, PartError>
    requires own { IsReadFromItsText catalog.old }
    requires accepted { Accepted catalog.old }
    ensures grown { GrowsTo catalog.old catalog.new }
    ensures read { Reads (texts_of catalog.new) result (to_the_end (bodies_of bodies catalog.new) bytes.now) }
    ensures numbers { IfOk result (HasBodies catalog.new) }
    ensures furthest { IfErr result (λ e. UnlessMemory e (IsFurthest bodies catalog.new bytes.now)) }
{
    let (numbers, rest) = bodies_in(alloc, bytes, catalog, bodies)?;
    if !rest.is_empty() {
        return Err(PartError::Foreign { left: rest.len() });
    }
    Ok(numbers)
}

/// The database that a shard with an image's tables, what the image has beside them, and the numbers of its bodies make. The
/// batches are moved; linear in the inputs of all procedures for each stream.
fn made_of(
    alloc: Global,
    catalog: &Catalog,
    whole: Shard,
    beside: Beside,
    numbers: Seq<usize>,
) -> Result<Database, PartError>
    requires accepted { Accepted catalog.now }
    requires changes { whole.changes ≡ [] }
    requires kept { (d : Model) × IsKeptBeside catalog.now whole (as_beside beside) (texts_of catalog.now numbers) d }
    ensures stands { IfOk result (λ database. (d : Model) → IsKeptBeside catalog.now whole (as_beside beside) (texts_of catalog.now numbers) d
        → StandsFor catalog.now database d) }
    ensures shard { IfOk result (λ database. database.whole ≡ with_beside whole beside numbers) }
    ensures memory { IfErr result (λ e. e ≡ NoMemory) }
{
    let Beside { windows, progress } = beside;
    let Progress {
        streams,
        counts,
        sources,
    } = progress;
    let Ok(streams) = resumed_streams(alloc, catalog, streams, counts.as_slice()) else {
        return Err(PartError::NoMemory);
    };
    let whole = whole.resumed(windows, counts, sources).with_bodies(numbers);
    Ok(Database { whole, streams })
}

/// The database that an image stands for, whose catalogue's text is read. `first` is the place of the image: no stream has had
/// more batches. `partitions` is how many run. `bodies` says whether the image is of the form that tells the bodies of the
/// procedures: those that aren't the procedures' own join the ones to be installed, also where something is refused.
///
/// Linear in the bytes, an insert for each row, and what `but_bodies_in`, `bodies_in` and `made_of` cost.
pub(crate) fn database_in(
    alloc: Global,
    bytes: &[u8],
    catalog: &mut Catalog,
    first: u64,
    partitions: u8,
    bodies: bool,
) -> Result<Database, PartError>
    requires own { IsReadFromItsText catalog.old }
    requires accepted { Accepted catalog.old }
    requires place { first ≤ 2 ^ 60 }
    requires some { 1 ≤ partitions }
    requires few { partitions ≤ 8 }
    ensures grown { GrowsTo catalog.old catalog.new }
    ensures read { IfOk result (IsReadDatabase bodies catalog.new first bytes.now) }
    ensures whole { IfOk result (λ database. IsWholeShard catalog.new partitions database.whole) }
    ensures refused { IfErr result (λ e. RefusesRest bodies catalog.new first bytes.now e) }
{
    // Laws: a text is one catalogue's, and what is read to the end is kept of a whole database.
    a_nested_value_has_one_answer();
    images_are_exact();
    let (parts, rest) = shard_and_beside_in(alloc, bytes, catalog, first, partitions)?;
    let (whole, beside) = parts;
    let numbers = last_bodies_in(alloc, rest, catalog, bodies)?;
    made_of(alloc, catalog, whole, beside, numbers)
}

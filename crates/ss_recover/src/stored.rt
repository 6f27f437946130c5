//! What a store's contents come to.

ghost use Rattle.std.specs.Prelude.{◌≡◌, ◌≤◌, ◌+◌, ◌^◌, ℕ, length, All, Option, IfOk, IfErr, IfSome};
ghost use Rattle.ss_model.specs.declared.catalog.Catalog.{Catalog as CatalogValue};
ghost use Rattle.ss_model.specs.Accepted.{Accepted};
ghost use Rattle.ss_model.specs.Asked.{asked_of};
ghost use Rattle.ss_record.specs.Bounds.{IsRecordable};
ghost use Rattle.ss_cmdlog.specs.Logged.{logged};
ghost use Rattle.ss_shard.specs.Databases.{IsWhole};
ghost use Rattle.ss_shard.specs.Parts.{IsWholeShard};
ghost use Rattle.ss_snapshot.specs.Images.{IsReadAs};
ghost use Rattle.ss_snapshot.specs.Own.{IsReadFromItsText};
ghost use Rattle.ss_recover.specs.Loading.{AreNamed, HasGivenBodies, IsStored, RefusesImage, RefusesLoaded, stored_as};

use crate::filling::{fill_given, fill_installs};
use crate::laws::none_gets_further;
use crate::place::{first_place, image_byte, place_behind};
use ss_cmdlog::Loaded;
use ss_model::{Catalog, Listed, Mode};
use ss_proc::Runner;
use ss_replay::{ReplayError, Replayed, replay};
use ss_shard::Database;
use ss_snapshot::{ImageError, read_image};
use ss_value::{NoMemory, Seq};
use ss_weak_replay::{WeakError, replay_weakly};
use std::alloc::Global;

/// The database that a store's entries lead to, and they with their outcomes.
#[derive(Drop)]
pub(crate) struct Stored {
    pub database: Database,
    pub catalog: Catalog,
    pub first: u64,
    pub known: Seq<Listed>,
    /// Whether bodies are in the image that was read, and this image.
    pub bodies: bool,
    pub image: Seq<u8>,
}

/// Why contents are no store's.
#[derive(Clone, Copy, Debug, PartialEq, Eq, Drop)]
pub(crate) enum StoredError {
    /// Out of memory, which says nothing of them.
    NoMemory,
    /// The first byte that can't be, by its place in the file.
    Foreign { at: u64 },
}

impl From<NoMemory> for StoredError {
    ghost use Rattle.std.specs.Prelude.{◌≡◌};
    ghost use Rattle.ss_recover.specs.declared.stored.StoredError.TheVariants.{NoMemory as OutOfMemory};

    ghost from_gives = { λ _ e. e ≡ OutOfMemory };

    fn from(_: NoMemory) -> StoredError {
        StoredError::NoMemory
    }
}

/// The catalogue and the database of an image at this place, dealt to so many partitions.
fn image_at(
    alloc: Global,
    image: &[u8],
    first: u64,
    partitions: u8,
    bodies: bool,
) -> Result<(Catalog, Database), StoredError>
    requires some { 1 ≤ partitions }
    requires few { partitions ≤ 8 }
    requires place { first ≤ 2 ^ 60 }
    ensures image { IfOk result (IsReadAs bodies image.now first) }
    ensures accepted { IfOk result (λ read. Accepted read.0) }
    ensures is_whole { IfOk result (λ read. IsWholeShard read.0 partitions read.1.whole × IsWhole read.0 read.1) }
    ensures refused { IfErr result (RefusesImage bodies first image.now) }
{
    match read_image(alloc, image, first, partitions, bodies) {
        Ok(read) => Ok(read),
        Err(ImageError::NoMemory) => Err(StoredError::NoMemory),
        Err(ImageError::Foreign { at }) => Err(StoredError::Foreign {
            at: image_byte(bodies, at)?,
        }),
    }
}

/// The catalogue and the database of the image of what was loaded, dealt to so many partitions.
fn loaded_image(
    alloc: Global,
    loaded: &Loaded,
    partitions: u8,
) -> Result<(Catalog, Database), StoredError>
    requires some { 1 ≤ partitions }
    requires few { partitions ≤ 8 }
    requires place { loaded.now.first ≤ 2 ^ 60 }
    ensures image { IfOk result (IsReadAs loaded.now.bodies loaded.now.image loaded.now.first) }
    ensures accepted { IfOk result (λ read. Accepted read.0) }
    ensures is_whole { IfOk result (λ read. IsWholeShard read.0 partitions read.1.whole × IsWhole read.0 read.1) }
    ensures refused { IfErr result (RefusesLoaded loaded.now) }
{
    match image_at(
        alloc,
        loaded.image.as_slice(),
        loaded.first,
        partitions,
        loaded.bodies,
    ) {
        Ok(read) => Ok(read),
        Err(refused) => Err(refused),
    }
}

/// Replays the entries of what was loaded of a strong store on the database of its image.
///
/// The catalogue is lent, so that a refusal lets it go in one place and not in each. A refused entry's record is sought by
/// the records before it.
fn replay_loaded<N: Runner>(
    alloc: Global,
    catalog: &Catalog,
    runner: &N,
    database: Database,
    loaded: Loaded,
) -> Result<(Replayed, Seq<u8>), StoredError>
    requires mode { loaded.mode ≡ Mode.Strong }
    requires accepted { Accepted catalog.now }
    requires image { IsReadAs loaded.bodies loaded.image loaded.first (catalog.now, database) }
    requires named { AreNamed catalog.now loaded.entries }
    requires whole { IsWhole catalog.now database }
    requires first { loaded.first ≤ 2 ^ 60 }
    requires recordable { All IsRecordable loaded.entries }
    ensures ok { IfOk result (λ r. (parts : ℕ) (given : Option CatalogValue) → IsWholeShard catalog.now parts database.whole
        → HasGivenBodies catalog.now given → IsStored loaded given parts (stored_as catalog.now loaded r.0)) }
    ensures placed { IfOk result (λ r. loaded.first + length r.0.list ≤ 2 ^ 60) }
    ensures image { IfOk result (λ r. r.1 ≡ loaded.image) }
    ensures refused { IfErr result (RefusesLoaded loaded) }
{
    none_gets_further();
    let Loaded {
        bodies,
        first,
        image,
        entries,
        sizes,
        ..
    } = loaded;
    match replay(alloc, catalog, runner, database, first, entries) {
        Ok(replayed) => Ok((replayed, image)),
        Err(ReplayError::NoMemory) => Err(StoredError::NoMemory),
        Err(ReplayError::Foreign { before }) => {
            let list = before.as_slice();
            Err(StoredError::Foreign {
                at: place_behind(alloc, bodies, image.len(), sizes.as_slice(), list)?,
            })
        }
    }
}

/// Replays the requests of what was loaded of a weak store on the database of its image, with the steps that they set off.
///
/// The catalogue is lent, and a refused entry's record is sought, as in `replay_loaded`.
fn replay_asked<N: Runner>(
    alloc: Global,
    catalog: &Catalog,
    runner: &N,
    database: Database,
    loaded: Loaded,
) -> Result<(Replayed, Seq<u8>), StoredError>
    requires mode { loaded.mode ≡ Mode.Weak }
    requires accepted { Accepted catalog.now }
    requires image { IsReadAs loaded.bodies loaded.image loaded.first (catalog.now, database) }
    requires named { AreNamed catalog.now loaded.entries }
    requires whole { IsWhole catalog.now database }
    requires first { loaded.first ≤ 2 ^ 60 }
    requires recordable { All IsRecordable loaded.entries }
    requires asked { asked_of loaded.entries ≡ loaded.entries }
    ensures ok { IfOk result (λ r. (parts : ℕ) (given : Option CatalogValue) → IsWholeShard catalog.now parts database.whole
        → HasGivenBodies catalog.now given → IsStored loaded given parts (stored_as catalog.now loaded r.0)) }
    ensures placed { IfOk result (λ r. loaded.first + length r.0.list ≤ 2 ^ 60) }
    ensures image { IfOk result (λ r. r.1 ≡ loaded.image) }
    ensures refused { IfErr result (RefusesLoaded loaded) }
{
    none_gets_further();
    let Loaded {
        bodies,
        first,
        image,
        entries,
        sizes,
        ..
    } = loaded;
    match replay_weakly(alloc, catalog, runner, database, first, entries) {
        Ok(replayed) => Ok((replayed, image)),
        Err(WeakError::NoMemory) => Err(StoredError::NoMemory),
        Err(WeakError::Unsettled) => Err(StoredError::Foreign {
            at: first_place(bodies),
        }),
        Err(WeakError::Foreign { before }) => {
            let list = before.as_slice();
            Err(StoredError::Foreign {
                at: place_behind(alloc, bodies, image.len(), sizes.as_slice(), list)?,
            })
        }
    }
}

/// Replays what was loaded, by its mode.
fn replay_by_mode<N: Runner>(
    alloc: Global,
    catalog: &Catalog,
    runner: &N,
    database: Database,
    loaded: Loaded,
) -> Result<(Replayed, Seq<u8>), StoredError>
    requires accepted { Accepted catalog.now }
    requires image { IsReadAs loaded.bodies loaded.image loaded.first (catalog.now, database) }
    requires named { AreNamed catalog.now loaded.entries }
    requires whole { IsWhole catalog.now database }
    requires first { loaded.first ≤ 2 ^ 60 }
    requires recordable { All IsRecordable loaded.entries }
    requires logged { logged loaded.mode loaded.entries ≡ loaded.entries }
    ensures ok { IfOk result (λ r. (parts : ℕ) (given : Option CatalogValue) → IsWholeShard catalog.now parts database.whole
        → HasGivenBodies catalog.now given → IsStored loaded given parts (stored_as catalog.now loaded r.0)) }
    ensures placed { IfOk result (λ r. loaded.first + length r.0.list ≤ 2 ^ 60) }
    ensures image { IfOk result (λ r. r.1 ≡ loaded.image) }
    ensures refused { IfErr result (RefusesLoaded loaded) }
{
    match loaded.mode {
        Mode::Strong => replay_loaded(alloc, catalog, runner, database, loaded),
        Mode::Weak => replay_asked(alloc, catalog, runner, database, loaded),
    }
}

/// The catalogue and the database of the image of what was loaded, with the bodies that its entries and the given catalogue name.
fn loaded_with_bodies(
    alloc: Global,
    loaded: &Loaded,
    given: &Option<Catalog>,
    partitions: u8,
) -> Result<(Catalog, Database), StoredError>
    requires some { 1 ≤ partitions }
    requires few { partitions ≤ 8 }
    requires place { loaded.now.first ≤ 2 ^ 60 }
    requires own { IfSome given.now IsReadFromItsText }
    ensures image { IfOk result (IsReadAs loaded.now.bodies loaded.now.image loaded.now.first) }
    ensures accepted { IfOk result (λ read. Accepted read.0) }
    ensures named { IfOk result (λ read. AreNamed read.0 loaded.now.entries) }
    ensures given { IfOk result (λ read. HasGivenBodies read.0 given.now) }
    ensures is_whole { IfOk result (λ read. IsWholeShard read.0 partitions read.1.whole × IsWhole read.0 read.1) }
    ensures refused { IfErr result (RefusesLoaded loaded.now) }
{
    let (mut catalog, database) = loaded_image(alloc, loaded, partitions)?;
    fill_installs(alloc, &mut catalog, loaded.entries.as_slice())?;
    fill_given(alloc, &mut catalog, given)?;
    Ok((catalog, database))
}

/// Reads the image and replays the entries by the mode, on a database that is dealt to so many partitions. The catalogue has the bodies that
/// the image, the entries and the given one name.
///
/// Linear in the image, and costs an insert for each of its rows; costs as much as reading the catalogue for each body that isn't in the
/// image; and costs what the replay costs.
pub(crate) fn stored_in<N: Runner>(
    alloc: Global,
    runner: &N,
    loaded: Loaded,
    given: &Option<Catalog>,
    partitions: u8,
) -> Result<Stored, StoredError>
    requires first { loaded.first ≤ 2 ^ 60 }
    requires recordable { All IsRecordable loaded.entries }
    requires logged { logged loaded.mode loaded.entries ≡ loaded.entries }
    requires some { 1 ≤ partitions }
    requires few { partitions ≤ 8 }
    requires own { IfSome given.now IsReadFromItsText }
    ensures ok { IfOk result (IsStored loaded given.now partitions) }
    ensures refused { IfErr result (RefusesLoaded loaded) }
{
    let (catalog, database) = loaded_with_bodies(alloc, &loaded, given, partitions)?;
    let first = loaded.first;
    let bodies = loaded.bodies;
    match replay_by_mode(alloc, &catalog, runner, database, loaded) {
        Ok((Replayed { list, database }, image)) => Ok(Stored {
            database,
            catalog,
            first: first + list.len() as u64,
            known: list,
            bodies,
            image,
        }),
        Err(refused) => Err(refused),
    }
}

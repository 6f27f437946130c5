//! Where the record of an entry stands in its file.
//!
//! It is found by the entries before it and by how many each group has (`Loaded.sizes`), instead of kept for each
//! entry, because it is needed of one entry at most, and only where a store is refused. Then each record before it is
//! spelled once.

ghost use Rattle.std.specs.Prelude.{◌≡◌, ◌+◌, length, IfOk, All};
ghost use Rattle.ss_record.specs.Bounds.{IsRecordable};
ghost use Rattle.ss_record.specs.Spelling.{records};
ghost use Rattle.ss_standing.specs.Standing.{listed_entries};
ghost use Rattle.ss_recover.specs.Faults.{first_place, image_place};
ghost use Rattle.ss_recover.specs.Loading.{groups_begun, place_behind};

use ss_model::Listed;
use ss_record::record_of;
use ss_value::NoMemory;
use std::alloc::Global;

/// In front of the first place stands the magic: with a byte for the mode in the form in which bodies may be.
pub(crate) fn first_place(bodies: bool) -> u64
    ensures { result ≡ first_place bodies }
{
    if bodies { 9 } else { 8 }
}

/// In front of an image stand that, the first place and the image's length, of eight bytes each.
fn image_place(bodies: bool) -> u128
    ensures { result ≡ image_place bodies }
{
    if bodies { 25 } else { 24 }
}

/// In front of the records of a group stand its gate and two numbers of four bytes.
const GROUP_HEAD: u128 = 9;

/// The place of a byte of an image in its file. One that 64 bits don't tell is reported as out of memory.
pub(crate) fn image_byte(bodies: bool, offset: u64) -> Result<u64, NoMemory>
    ensures { IfOk result (λ at. at ≡ image_place bodies + offset) }
{
    match u64::try_from(image_place(bodies) + offset as u128) {
        Ok(at) => Ok(at),
        Err(_) => Err(NoMemory),
    }
}

/// How many groups begin up to the entry at this position, by how many entries each has. Linear in the groups.
fn groups_begun(sizes: &[u64], position: u64) -> usize
    ensures { result ≡ groups_begun sizes.now position }
{
    let mut left = position;
    for (at, size) in sizes.iter().enumerate() {
        if left < *size {
            return at + 1;
        }
        left -= *size;
    }
    sizes.len()
}

/// How many bytes the records of these entries have. Linear in them: each is spelled once, and let go.
fn records_length(alloc: Global, list: &[Listed]) -> Result<usize, NoMemory>
    requires { All IsRecordable (listed_entries list.now) }
    ensures { IfOk result (λ n. n ≡ length (records (listed_entries list.now))) }
{
    let mut length = 0usize;
    for listed in list {
        let record = record_of(alloc, &listed.entry)?;
        let Some(longer) = length.checked_add(record.len()) else {
            return Err(NoMemory);
        };
        length = longer;
    }
    Ok(length)
}

/// The place of the record behind those of these entries, where the image has so many bytes and each group so many entries.
///
/// Linear in the records and in the groups. A place that 64 bits don't tell is reported as out of memory.
pub(crate) fn place_behind(
    alloc: Global,
    bodies: bool,
    image: usize,
    sizes: &[u64],
    list: &[Listed],
) -> Result<u64, NoMemory>
    requires { All IsRecordable (listed_entries list.now) }
    ensures { IfOk result (λ at. at ≡ place_behind bodies image sizes.now (listed_entries list.now)) }
{
    let records = records_length(alloc, list)?;
    let groups = groups_begun(sizes, list.len() as u64);
    let at = image_place(bodies) + image as u128 + GROUP_HEAD * groups as u128 + records as u128;
    match u64::try_from(at) {
        Ok(at) => Ok(at),
        Err(_) => Err(NoMemory),
    }
}

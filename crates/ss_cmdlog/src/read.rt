//! A generation from bytes.

ghost use Rattle.std.specs.Prelude.{◌≡◌, ◌≤◌, ◌+◌, length, IfOk, IfErr, Ok};
ghost use Rattle.ss_record.specs.Reading.{number_at};
ghost use Rattle.ss_cmdlog.specs.Generation.{Stood, max_body};
ghost use Rattle.ss_cmdlog.specs.Logged.{is_barred};
ghost use Rattle.ss_cmdlog.specs.Reading.{whole, mode_at, magic_at, first_at, bytes_at, image_at, head_at, body_length_at, count_at, entry_at, group_entry_at, entries_at, group_at, gate_at, groups_at, stood_at, generation_at, with_front};
ghost use Rattle.ss_cmdlog.specs.Read.{field_error, flat, sizes_of, Reads, Refuses};
ghost use Rattle.ss_cmdlog.specs.Opening.{IsGatedAt, IsLoaded};

use crate::next::MAX_BODY;
use crate::open::Loaded;
use ss_model::{Entry, Mode};
use ss_record::{RecordError, byte_of, entry_in, u32_of, u64_of};
use ss_value::{Seq, ValueError};
use std::alloc::Global;

/// The number that the first bytes of a generation of the new form spell.
const NEW_MAGIC: u64 = 0x5353_544F_5245_320A;

/// And of a strong one of the older form.
const STRONG_MAGIC: u64 = 0x5353_544F_5245_310A;

/// And of a weak one.
const WEAK_MAGIC: u64 = 0x5353_544F_5245_570A;

/// The greatest first place.
const LAST_PLACE: u64 = 1 << 60;

/// Why bytes aren't read as a generation. A fault is told by how many bytes are left, instead of by its place, so that
/// no reader of a field carries a place: whoever has all of the bytes makes one of it.
#[derive(Clone, Copy, Debug, PartialEq, Eq, Drop)]
pub(crate) enum ReadError {
    /// Want of memory.
    NoMemory,
    /// So many bytes are left from the first on that can't be.
    Foreign { left: usize },
}

impl From<ValueError> for ReadError {
    ghost use Rattle.std.specs.Prelude.{◌≡◌};
    ghost use Rattle.ss_cmdlog.specs.Read.{number_error};

    ghost from_gives = { λ refused e. e ≡ number_error refused };

    fn from(refused: ValueError) -> ReadError {
        match refused {
            ValueError::NoMemory => ReadError::NoMemory,
            _ => ReadError::Foreign { left: 0 },
        }
    }
}

/// The refusal of a record.
fn refused_record(bytes: &[u8], refused: RecordError) -> ReadError
    ensures { result ≡ field_error bytes.now refused }
{
    match refused {
        RecordError::NoMemory => ReadError::NoMemory,
        RecordError::Truncated => ReadError::Foreign { left: 0 },
        _ => ReadError::Foreign { left: bytes.len() },
    }
}

#[tactic(auto, unfolding(crate::specs::Reading::gate_at))]
fn gate_in(bytes: &[u8]) -> Result<(u8, &[u8]), ReadError>
    ensures { Reads (λ x. (x.0, x.1.now)) result (gate_at bytes.now) }
{
    match byte_of(bytes) {
        Ok(gate) => Ok(gate),
        Err(refused) => Err(ReadError::from(refused)),
    }
}

fn u64_in(bytes: &[u8]) -> Result<(u64, &[u8]), ReadError>
    ensures { Reads (λ x. (x.0, x.1.now)) result (whole (number_at 8 bytes.now)) }
{
    match u64_of(bytes) {
        Ok(number) => Ok(number),
        Err(refused) => Err(ReadError::from(refused)),
    }
}

fn u32_in(bytes: &[u8]) -> Result<(u32, &[u8]), ReadError>
    ensures { Reads (λ x. (x.0, x.1.now)) result (whole (number_at 4 bytes.now)) }
{
    match u32_of(bytes) {
        Ok(number) => Ok(number),
        Err(refused) => Err(ReadError::from(refused)),
    }
}

#[tactic(auto, unfolding(crate::specs::Reading::mode_at))]
fn mode_in(bytes: &[u8]) -> Result<(Mode, &[u8]), ReadError>
    ensures { Reads (λ x. (x.0, x.1.now)) result (mode_at bytes.now) }
{
    match byte_of(bytes) {
        Ok((0, rest)) => Ok((Mode::Strong, rest)),
        Ok((1, rest)) => Ok((Mode::Weak, rest)),
        Ok(_) => Err(ReadError::Foreign { left: bytes.len() }),
        Err(refused) => Err(ReadError::from(refused)),
    }
}

/// Whether bodies may be behind it, and the mode.
#[tactic(auto, unfolding(crate::specs::Reading::magic_at))]
fn magic_in(bytes: &[u8]) -> Result<(bool, Mode, &[u8]), ReadError>
    ensures { Reads (λ x. (x.0, x.1, x.2.now)) result (magic_at bytes.now) }
{
    let (number, rest) = u64_in(bytes)?;
    if number == NEW_MAGIC {
        let (mode, rest) = mode_in(rest)?;
        return Ok((true, mode, rest));
    }
    if number == STRONG_MAGIC {
        return Ok((false, Mode::Strong, rest));
    }
    if number == WEAK_MAGIC {
        return Ok((false, Mode::Weak, rest));
    }
    Err(ReadError::Foreign { left: bytes.len() })
}

#[tactic(auto, unfolding(crate::specs::Reading::first_at))]
fn first_in(bytes: &[u8]) -> Result<(u64, &[u8]), ReadError>
    ensures { Reads (λ x. (x.0, x.1.now)) result (first_at bytes.now) }
{
    let (first, rest) = u64_in(bytes)?;
    if first > LAST_PLACE {
        return Err(ReadError::Foreign { left: bytes.len() });
    }
    Ok((first, rest))
}

#[tactic(auto, unfolding(crate::specs::Reading::image_at, crate::specs::Reading::bytes_at))]
fn image_in(bytes: &[u8]) -> Result<(&[u8], &[u8]), ReadError>
    ensures { Reads (λ x. (x.0.now, x.1.now)) result (image_at bytes.now) }
{
    let (count, rest) = u64_in(bytes)?;
    if (rest.len() as u64) < count {
        return Err(ReadError::Foreign { left: 0 });
    }
    Ok(rest.split_at(count as usize))
}

#[tactic(auto, unfolding(crate::specs::Reading::body_length_at))]
fn body_length_in(bytes: &[u8]) -> Result<(u32, &[u8]), ReadError>
    ensures read { Reads (λ x. (x.0, x.1.now)) result (body_length_at bytes.now) }
    ensures short { IfOk result (λ x. x.0 ≤ max_body) }
{
    let (body, rest) = u32_in(bytes)?;
    if body as usize > MAX_BODY {
        return Err(ReadError::Foreign { left: bytes.len() });
    }
    Ok((body, rest))
}

#[tactic(auto, unfolding(crate::specs::Reading::count_at))]
fn count_in(bytes: &[u8]) -> Result<(u32, &[u8]), ReadError>
    ensures { Reads (λ x. (x.0, x.1.now)) result (count_at bytes.now) }
{
    let (count, rest) = u32_in(bytes)?;
    if count == 0 {
        return Err(ReadError::Foreign { left: bytes.len() });
    }
    Ok((count, rest))
}

/// Whether no record of such a log begins so: a weak log has no steps, and one of the older form no installs.
fn is_barred(bodies: bool, mode: Mode, bytes: &[u8]) -> bool
    ensures { result ≡ is_barred bodies mode bytes.now }
{
    match bytes.first() {
        Some(3) => matches!(mode, Mode::Weak),
        Some(4) => !bodies,
        _ => false,
    }
}

#[tactic(auto, unfolding(crate::specs::Reading::entry_at))]
fn entry_of(
    alloc: Global,
    bodies: bool,
    mode: Mode,
    bytes: &[u8],
) -> Result<(Entry, &[u8]), ReadError>
    ensures { Reads (λ x. (x.0, x.1.now)) result (entry_at bodies mode bytes.now) }
{
    if is_barred(bodies, mode, bytes) {
        return Err(ReadError::Foreign { left: bytes.len() });
    }
    match entry_in(alloc, bytes) {
        Ok(entry) => Ok(entry),
        Err(refused) => Err(refused_record(bytes, refused)),
    }
}

/// An entry with so many more behind it in its group. The last of them ends where the length of the body says.
#[tactic(auto, unfolding(crate::specs::Reading::group_entry_at))]
fn group_entry_in(
    alloc: Global,
    bodies: bool,
    mode: Mode,
    bytes: &[u8],
    more: u32,
    body: u32,
    total: usize,
) -> Result<(Entry, &[u8]), ReadError>
    requires { body ≤ max_body }
    ensures { Reads (λ x. (x.0, x.1.now)) result (group_entry_at bodies mode more body total bytes.now) }
{
    let (entry, rest) = entry_of(alloc, bodies, mode, bytes)?;
    if more == 0 && body as usize + rest.len() != total {
        return Err(ReadError::Foreign { left: bytes.len() });
    }
    Ok((entry, rest))
}

/// So many entries, behind those that were read.
fn entries_in(
    alloc: Global,
    bodies: bool,
    mode: Mode,
    mut entries: Seq<Entry>,
    bytes: &[u8],
    count: u32,
    body: u32,
) -> Result<(Seq<Entry>, &[u8]), ReadError>
    requires { body ≤ max_body }
    ensures { Reads (λ x. (x.0, x.1.now)) result (with_front entries (entries_at bodies mode count body (length bytes.now) bytes.now)) }
{
    let mut rest = bytes;
    for done in 0..count {
        let (entry, behind) = group_entry_in(
            alloc,
            bodies,
            mode,
            rest,
            count - done - 1,
            body,
            bytes.len(),
        )?;
        if entries.push(entry).is_err() {
            return Err(ReadError::NoMemory);
        }
        rest = behind;
    }
    Ok((entries, rest))
}

/// The entries of a group, behind those that were read.
#[tactic(auto, unfolding(crate::specs::Reading::group_at))]
fn group_in(
    alloc: Global,
    bodies: bool,
    mode: Mode,
    entries: Seq<Entry>,
    bytes: &[u8],
) -> Result<(Seq<Entry>, &[u8]), ReadError>
    ensures { Reads (λ x. (x.0, x.1.now)) result (with_front entries (group_at bodies mode bytes.now)) }
{
    let (body, rest) = body_length_in(bytes)?;
    let (count, rest) = count_in(rest)?;
    entries_in(alloc, bodies, mode, entries, rest, count, body)
}

/// The entries of all groups, how many each has, and the bytes from the closed gate on. Each group takes a byte at least.
fn groups_in(
    alloc: Global,
    bodies: bool,
    mode: Mode,
    bytes: &[u8],
) -> Result<(Seq<Entry>, Seq<u64>, &[u8]), ReadError>
    ensures entries { Reads (λ x. (x.0, x.2.now)) result (flat (groups_at bodies mode (length bytes.now) bytes.now)) }
    ensures sizes { IfOk result (λ x. sizes_of (groups_at bodies mode (length bytes.now) bytes.now) ≡ Ok x.1) }
{
    let mut entries = Seq::new(alloc);
    let mut sizes = Seq::new(alloc);
    let mut rest = bytes;
    for _ in 0..bytes.len() {
        let (gate, behind) = gate_in(rest)?;
        if gate != 1 {
            return Ok((entries, sizes, rest));
        }
        let before = entries.len();
        let (more, after) = group_in(alloc, bodies, mode, entries, behind)?;
        if sizes
            .push(more.len().saturating_sub(before) as u64)
            .is_err()
        {
            return Err(ReadError::NoMemory);
        }
        entries = more;
        rest = after;
    }
    Err(ReadError::Foreign { left: 0 })
}

/// Whether bodies may be in it, the mode, the first place, the image and the bytes behind it.
#[tactic(auto, unfolding(crate::specs::Reading::head_at))]
fn head_in(bytes: &[u8]) -> Result<(bool, Mode, u64, &[u8], &[u8]), ReadError>
    ensures { Reads (λ x. (x.0, x.1, x.2, x.3.now, x.4.now)) result (head_at bytes.now) }
{
    let (bodies, mode, rest) = magic_in(bytes)?;
    let (first, rest) = first_in(rest)?;
    let (image, rest) = image_in(rest)?;
    Ok((bodies, mode, first, image, rest))
}

/// What is read of a generation, and the place of its closed gate.
#[derive(Drop)]
pub(crate) struct Generation {
    pub loaded: Loaded,
    pub gate: usize,
}

/// Reads a generation: linear in the bytes in front of its closed gate. There is one copy of the image.
pub(crate) fn generation_in(alloc: Global, bytes: &[u8]) -> Result<Generation, ReadError>
    ensures found { IfOk result (λ g. (s : Stood) × (generation_at bytes.now ≡ Ok s) × IsGatedAt bytes.now g.gate s × IsLoaded g.loaded s) }
    ensures refused { IfErr result (λ e. Refuses e (stood_at bytes.now)) }
{
    let (bodies, mode, first, image, rest) = head_in(bytes)?;
    let (entries, sizes, behind) = groups_in(alloc, bodies, mode, rest)?;
    let Ok(image) = Vec::from_slice(alloc, image) else {
        return Err(ReadError::NoMemory);
    };
    Ok(Generation {
        loaded: Loaded {
            bodies,
            mode,
            first,
            image: Seq::from_vec(image),
            entries,
            sizes,
        },
        gate: bytes.len() - behind.len(),
    })
}

//! Numbers of an image, each with room for it.

ghost use Rattle.std.specs.Prelude.{◌≡◌, ◌++◌, ◌<◌, ◌^◌, IfOk, OnOk};
ghost use Rattle.ss_record.specs.Numbers.{number_bytes};

use ss_record::{push_u16, push_u32, push_u64};
use ss_value::NoMemory;

/// Adds a number of eight bytes, and tells that it has room there.
pub(crate) fn push_long(out: &mut Vec<u8>, number: u64) -> Result<(), NoMemory>
    ensures spelled { OnOk result (out.new.items ≡ out.old.items ++ number_bytes 8 number) }
    ensures fits { OnOk result (number < 2 ^ 64) }
{
    push_u64(out, number)?;
    Ok(())
}

/// Adds a count, which takes four bytes. A greater one than these can tell is reported as out of memory, instead of being
/// ruled out by a premise.
pub(crate) fn push_count(out: &mut Vec<u8>, count: usize) -> Result<(), NoMemory>
    ensures spelled { OnOk result (out.new.items ≡ out.old.items ++ number_bytes 4 count) }
{
    let Ok(count) = u32::try_from(count) else {
        return Err(NoMemory);
    };
    push_u32(out, count)?;
    Ok(())
}

/// A count as one of two bytes. A greater one than these can tell is reported as out of memory, instead of being ruled out
/// by a premise.
pub(crate) fn short_count(count: usize) -> Result<u16, NoMemory>
    ensures { IfOk result (λ short. short ≡ count) }
{
    match u16::try_from(count) {
        Ok(short) => Ok(short),
        Err(_) => Err(NoMemory),
    }
}

/// Adds a count, which takes two bytes, where it has room there, as `short_count` says.
pub(crate) fn push_short_count(out: &mut Vec<u8>, count: usize) -> Result<(), NoMemory>
    ensures spelled { OnOk result (out.new.items ≡ out.old.items ++ number_bytes 2 count) }
    ensures fits { OnOk result (count < 2 ^ 16) }
{
    let short = short_count(count)?;
    push_u16(out, short)?;
    Ok(())
}

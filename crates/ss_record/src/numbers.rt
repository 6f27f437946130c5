//! Numbers at the end of bytes.

ghost use Rattle.std.specs.Prelude.{◌≡◌, ◌++◌, ◌+◌, length, OnOk, OnErr};
ghost use Rattle.ss_record.specs.Numbers.{number_bytes};

use byteorder::{BigEndian, ByteOrder};
use ss_value::NoMemory;

/// Adds a number of two bytes, the higher of them first. Out of memory leaves the bytes.
#[tactic(auto, unfolding(crate::specs::Numbers::number_bytes))]
pub fn push_u16(out: &mut Vec<u8>, x: u16) -> Result<(), NoMemory>
    ensures spelled { OnOk result (out.new.items ≡ out.old.items ++ number_bytes 2 x) }
    ensures long { OnOk result (length out.new.items ≡ length out.old.items + 2) }
    ensures err { OnErr result (out.new.items ≡ out.old.items) }
{
    let mut bytes = [0u8; 2];
    BigEndian::write_u16(&mut bytes, x);
    out.extend_from_slice(&bytes)?;
    Ok(())
}

/// Adds a number of four bytes, the highest of them first. Out of memory leaves the bytes.
#[tactic(auto, unfolding(crate::specs::Numbers::number_bytes))]
pub fn push_u32(out: &mut Vec<u8>, x: u32) -> Result<(), NoMemory>
    ensures spelled { OnOk result (out.new.items ≡ out.old.items ++ number_bytes 4 x) }
    ensures long { OnOk result (length out.new.items ≡ length out.old.items + 4) }
    ensures err { OnErr result (out.new.items ≡ out.old.items) }
{
    let mut bytes = [0u8; 4];
    BigEndian::write_u32(&mut bytes, x);
    out.extend_from_slice(&bytes)?;
    Ok(())
}

/// Adds a number of eight bytes, the highest of them first. Out of memory leaves the bytes.
#[tactic(auto, unfolding(crate::specs::Numbers::number_bytes))]
pub fn push_u64(out: &mut Vec<u8>, x: u64) -> Result<(), NoMemory>
    ensures spelled { OnOk result (out.new.items ≡ out.old.items ++ number_bytes 8 x) }
    ensures long { OnOk result (length out.new.items ≡ length out.old.items + 8) }
    ensures err { OnErr result (out.new.items ≡ out.old.items) }
{
    let mut bytes = [0u8; 8];
    BigEndian::write_u64(&mut bytes, x);
    out.extend_from_slice(&bytes)?;
    Ok(())
}

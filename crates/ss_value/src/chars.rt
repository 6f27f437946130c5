//! Where the bytes of a text stand: few of them in the value itself, more in a block of memory of their own.

ghost use Rattle.std.specs.Prelude.{◌≡◌, ◌≤◌, ◌+◌, ◌++◌, length, take, IfOk, string_bytes};
ghost use Rattle.std.specs.Str.{IsUtf8};
ghost use Rattle.ss_value.specs.Held.{held_bytes, IsHeld};

use crate::NoMemory;
use crate::boxed::Boxed;
use std::alloc::Global;
use std::str::from_utf8;

/// The most bytes that stand in the value itself, which then has 16 with their number and the variant.
const ROOM: usize = 14;

/// The bytes of a text.
#[derive(Drop)]
pub(crate) enum Chars {
    /// The first `len` of these. What stands behind them is no part of the text.
    Short { len: u8, bytes: [u8; ROOM] },
    /// More than there is room for in the value.
    Long(Boxed<String>),
}

impl Chars {
    /// The bytes of a text. Takes no memory where there is room for them in the value. Linear in them.
    pub(crate) fn of_str(alloc: Global, text: &str) -> Result<Chars, NoMemory>
        ensures bytes { IfOk result (λ chars. held_bytes chars ≡ text.now) }
        ensures held { IfOk result IsHeld }
    {
        if text.len() <= ROOM {
            return Ok(short_of(text.as_bytes()));
        }
        let text = boxed(alloc, text)?;
        Ok(Chars::Long(text))
    }

    /// The bytes of two texts, one behind the other, as `of_str` holds them.
    pub(crate) fn joined(alloc: Global, front: &str, back: &str) -> Result<Chars, NoMemory>
        requires { length front.now + length back.now ≤ 255 }
        ensures bytes { IfOk result (λ chars. held_bytes chars ≡ front.now ++ back.now) }
        ensures held { IfOk result IsHeld }
    {
        if front.len() + back.len() <= ROOM {
            return Ok(short_joined(front.as_bytes(), back.as_bytes()));
        }
        let mut text = String::from_str(alloc, front)?;
        text.push_str(back)?;
        let text = Boxed::new(alloc, text)?;
        Ok(Chars::Long(text))
    }

    /// The bytes, at no cost.
    pub(crate) fn as_bytes(&self) -> &[u8]
        requires { IsHeld self.now }
        ensures { result.now ≡ held_bytes self.now }
    {
        match self {
            Chars::Short { len, bytes } => &bytes[..usize::from(*len)],
            Chars::Long(text) => text.get().as_bytes(),
        }
    }

    /// The bytes as a `str`. Looks through those that stand in the value, and is at no cost where there are more.
    pub(crate) fn as_str(&self) -> &str
        requires held { IsHeld self.now }
        requires text { IsUtf8 (held_bytes self.now) }
        ensures { result.now ≡ held_bytes self.now }
    {
        match self {
            Chars::Short { len, bytes } => {
                // A text is UTF-8.
                let Ok(text) = from_utf8(&bytes[..usize::from(*len)]) else {
                    unreachable!()
                };
                text
            }
            Chars::Long(text) => text.get().as_str(),
        }
    }

    /// The number of bytes.
    pub(crate) fn len(&self) -> usize
        requires { IsHeld self.now }
        ensures { result ≡ length (held_bytes self.now) }
    {
        self.as_bytes().len()
    }

    /// The same bytes. Takes no memory where they stand in the value, and is linear in them where not.
    pub(crate) fn copy(&self, alloc: Global) -> Result<Chars, NoMemory>
        requires { IsHeld self.now }
        ensures bytes { IfOk result (λ copy. held_bytes copy ≡ held_bytes self.now) }
        ensures held { IfOk result IsHeld }
    {
        match self {
            Chars::Short { len, bytes } => Ok(Chars::Short {
                len: *len,
                bytes: *bytes,
            }),
            Chars::Long(text) => {
                let text = boxed(alloc, text.get().as_str())?;
                Ok(Chars::Long(text))
            }
        }
    }
}

/// So few bytes, in the value.
fn short_of(bytes: &[u8]) -> Chars
    requires { length bytes.now ≤ ROOM }
    ensures bytes { held_bytes result ≡ bytes.now }
    ensures held { IsHeld result }
{
    let mut room = [0; ROOM];
    write_at(&mut room, 0, bytes);
    Chars::Short {
        len: bytes.len() as u8,
        bytes: room,
    }
}

/// So few bytes, one list behind the other, in the value.
fn short_joined(front: &[u8], back: &[u8]) -> Chars
    requires { length front.now + length back.now ≤ ROOM }
    ensures bytes { held_bytes result ≡ front.now ++ back.now }
    ensures held { IsHeld result }
{
    let mut room = [0; ROOM];
    write_at(&mut room, 0, front);
    write_at(&mut room, front.len(), back);
    Chars::Short {
        len: (front.len() + back.len()) as u8,
        bytes: room,
    }
}

/// Writes bytes over those from a position on.
fn write_at(room: &mut [u8], at: usize, bytes: &[u8])
    requires { at + length bytes.now ≤ length room.old }
    ensures written { take (at + length bytes.now) room.new ≡ take at room.old ++ bytes.now }
    ensures room { length room.new ≡ length room.old }
{
    room[at..at + bytes.len()].copy_from_slice(bytes);
}

/// A text in a block of memory of its own.
fn boxed(alloc: Global, text: &str) -> Result<Boxed<String>, NoMemory>
    ensures { IfOk result (λ copy. string_bytes copy ≡ text.now) }
{
    let text = String::from_str(alloc, text)?;
    Boxed::new(alloc, text)
}

//! Texts and names. Contracts see both as their bytes.

ghost use Rattle.std.specs.Prelude.{◌≡◌, ◌<◌, ◌≤◌, ◌+◌, List, length, IfOk, OnOk, IfErr, OnErr, IsErrOf, IsTrue, ◌↔◌};
ghost use Rattle.std.specs.Prelude.{◌⊎◌, false, ◌++◌, IfSome, IsSome};
ghost use Rattle.std.specs.Str.{IsUtf8};
ghost use Rattle.std.specs.List.{list_all};
ghost use Rattle.ss_value.specs.Words.{is_letter, is_word_byte, is_name};
ghost use Rattle.ss_value.specs.Refusals.{IsTextRefusal, IsNameRefusal};

use crate::NoMemory;
use crate::chars::Chars;
use std::alloc::Global;
use std::marker::Model;

/// A text: UTF-8 of at most 255 bytes, which its type's invariant says. Up to 14 bytes stand in the two words that it takes,
/// more in a `String` in a box.
#[derive(Drop)]
pub struct Text {
    chars: Chars,
}

impl Model for Text {
    ghost use Rattle.std.specs.Prelude.{List, ℕ};

    ghost Value = { List ℕ };

    ghost use Rattle.ss_value.specs.Words.{IsText};
    ghost use Rattle.ss_value.specs.Held.{held_bytes, IsHeld};

    ghost view = { λ t. held_bytes t.chars };

    ghost invariant = { λ t. IsText (held_bytes t.chars) × IsHeld t.chars };
}

/// Why bytes are refused as a text, a name or a row.
#[derive(Clone, Copy, Debug, PartialEq, Eq, Drop)]
pub enum ValueError {
    /// Out of memory.
    NoMemory,
    /// The bytes end inside a row.
    Truncated,
    /// A value's kind is neither that of an Int nor that of a Text.
    BadKind,
    /// The bytes are not UTF-8.
    NotUtf8,
    /// The text has more than 255 bytes.
    TextTooLong,
    /// The bytes are not a name, or a row has more than 16 values.
    WrongShape,
}

impl Text {
    /// The text as a `str`. Looks through up to 14 bytes, and is at no cost where there are more.
    pub fn as_str(&self) -> &str
        ensures { result.now ≡ self.now }
    {
        self.chars.as_str()
    }

    /// Its bytes, at no cost.
    pub fn as_bytes(&self) -> &[u8]
        ensures { result.now ≡ self.now }
    {
        self.chars.as_bytes()
    }

    /// The number of its bytes.
    pub fn len(&self) -> usize
        ensures bytes { result ≡ length self.now }
        ensures short { result ≤ 255 }
    {
        self.chars.len()
    }

    /// This text and another as one, and None exactly where that has over 255 bytes. Linear in the bytes of both.
    pub fn concat(&self, alloc: Global, other: &Text) -> Result<Option<Text>, NoMemory>
        ensures ok { IfOk result (λ joined. IfSome joined (λ text. text ≡ self.now ++ other.now)) }
        ensures within { IfOk result (λ joined. IsSome joined ↔ (length (self.now ++ other.now) ≤ 255)) }
    {
        if self.len() + other.len() > 255 {
            return Ok(None);
        }
        let chars = Chars::joined(alloc, self.as_str(), other.as_str())?;
        Ok(Some(Text { chars }))
    }

    /// An equal text. Linear in its bytes. Takes no memory for up to 14.
    pub fn copy(&self, alloc: Global) -> Result<Text, NoMemory>
        ensures { IfOk result (λ copy. copy ≡ self.now) }
    {
        let chars = self.chars.copy(alloc)?;
        Ok(Text { chars })
    }
}

/// The text with these bytes. Linear in them. Takes no memory for up to 14.
///
/// Refuses with `TextTooLong` exactly where there are over 255 bytes, and else with `NotUtf8` only where they are not
/// UTF-8.
pub fn text_of(alloc: Global, bytes: &[u8]) -> Result<Text, ValueError>
    ensures ok { IfOk result (λ text. (text ≡ bytes.now) × (length bytes.now ≤ 255) × IsUtf8 bytes.now) }
    ensures too_long { IsErrOf result ValueError.TextTooLong ↔ (255 < length bytes.now) }
    ensures not_utf8 { IsErrOf result ValueError.NotUtf8 → (length bytes.now ≤ 255) × (IsUtf8 bytes.now → ⊥) }
    ensures others { IfErr result IsTextRefusal }
{
    if bytes.len() > 255 {
        return Err(ValueError::TextTooLong);
    }
    let Ok(text) = std::str::from_utf8(bytes) else {
        return Err(ValueError::NotUtf8);
    };
    match Chars::of_str(alloc, text) {
        Ok(chars) => Ok(Text { chars }),
        Err(_) => Err(ValueError::NoMemory),
    }
}

/// A name: 1 to 32 characters of `a` to `z`, `0` to `9` and `_`, the first a letter, which its type's invariant says.
#[derive(Drop)]
pub struct Name {
    text: String,
}

impl Model for Name {
    ghost use Rattle.std.specs.Prelude.{List, ℕ, IsTrue};

    ghost Value = { List ℕ };

    ghost use Rattle.ss_value.specs.Words.{is_name};
    ghost use Rattle.std.specs.Prelude.{string_bytes};

    ghost view = { λ n. string_bytes n.text };

    ghost invariant = { λ n. IsTrue (is_name (string_bytes n.text)) };
}

impl Name {
    /// The name as a `str`, at no cost.
    pub fn as_str(&self) -> &str
        ensures { result.now ≡ self.now }
    {
        self.text.as_str()
    }

    /// Its bytes, at no cost.
    pub fn as_bytes(&self) -> &[u8]
        ensures bytes { result.now ≡ self.now }
        ensures name { IsTrue (is_name self.now) }
    {
        self.text.as_bytes()
    }

    /// An equal name. Linear in its bytes.
    pub fn copy(&self, alloc: Global) -> Result<Name, NoMemory>
        ensures { IfOk result (λ copy. copy ≡ self.now) }
    {
        match String::from_str(alloc, self.text.as_str()) {
            Ok(text) => Ok(Name { text }),
            Err(_) => Err(NoMemory),
        }
    }
}

fn is_letter(c: u8) -> bool
    ensures { result ≡ is_letter c }
{
    c.is_ascii_lowercase()
}

fn is_word_byte(c: u8) -> bool
    ensures { result ≡ is_word_byte c }
{
    is_letter(c) || (b'0'..=b'9').contains(&c) || c == b'_'
}

fn are_word_bytes(bytes: &[u8]) -> bool
    ensures { result ≡ list_all is_word_byte bytes.now }
{
    bytes.iter().all(|c| is_word_byte(*c))
}

fn is_name(bytes: &[u8]) -> bool
    ensures { result ≡ is_name bytes.now }
{
    match bytes.split_first() {
        None => false,
        Some((first, rest)) => is_letter(*first) && rest.len() < 32 && are_word_bytes(rest),
    }
}

/// The name with these bytes. Linear in them. Refuses with `WrongShape` exactly where they are not a name.
pub fn name_of(alloc: Global, bytes: &[u8]) -> Result<Name, ValueError>
    ensures ok { IfOk result (λ name. (name ≡ bytes.now) × IsTrue (is_name bytes.now)) }
    ensures wrong { IsErrOf result ValueError.WrongShape ↔ (is_name bytes.now ≡ false) }
    ensures others { IfErr result IsNameRefusal }
{
    if !is_name(bytes) {
        return Err(ValueError::WrongShape);
    }
    // The characters of a name are ASCII, so its bytes are UTF-8.
    let Ok(text) = std::str::from_utf8(bytes) else {
        unreachable!()
    };
    match String::from_str(alloc, text) {
        Ok(text) => Ok(Name { text }),
        Err(_) => Err(ValueError::NoMemory),
    }
}

//! Texts, numbers, arrays and objects of JSON.
//!
//! A fault of the value itself has the empty way and takes no memory. Each object or array around it copies the way
//! behind its own step, so a fault costs at most its depth times the length of its way.

ghost use Rattle.std.specs.Prelude.{◌≡◌, ◌++◌, [], List, ℕ, map, length, Result, Ok, IfOk, IfErr, option_map, is_some};
ghost use Rattle.serde_json.specs.Data.{Data};
ghost use Rattle.serde_json.specs.View.{view, items_view, members_view};
ghost use Rattle.ss_catalog_json.specs.Readings.{FaultsAs, LiesAt, key_step, item_step, inside, read_word, read_name, read_between, is_count_allowed, read_items_from, read_array_of, has_key, is_key, unknown_key, object_of, read_key, read_key_or, no_key};
ghost use Rattle.ss_catalog_json.specs.declared.read_error.ReadError.TheVariants.{Fault};

use crate::read_error::ReadError;
use crate::word::Word;
use serde_json::{Map, Value as Json};
use ss_value::{Name, NoMemory, Seq, ValueError, name_of};
use std::alloc::Global;

/// How a value is read: one type for each kind of thing that a value may say.
pub trait Reader {
    /// What the value says.
    type Read;

    // What a value is read as, or the way to its first fault.
    ghost reading: { Self → Data → Result Self.Read (List ℕ) };

    /// What a value is read as, or the way to its first fault. Linear in the value, in time and memory.
    fn read(&self, alloc: Global, value: &Json) -> Result<Self::Read, ReadError>
        ensures ok { IfOk result (λ x. reading self.now (view value.now) ≡ Ok x) }
        ensures refused { IfErr result (FaultsAs (reading self.now (view value.now))) };
}

// ---- faults

/// The fault of a value itself, with the empty way. Takes no memory.
pub fn fault_here(alloc: Global) -> ReadError
    ensures { result ≡ Fault [] }
{
    ReadError::Fault(Word::empty(alloc))
}

// On its own, since `?` needs a `Result`, and `at_key` answers an error in any case. So is `way_to_item`.
fn way_into(alloc: Global, key: &str, way: &str) -> Result<Word, NoMemory>
    ensures { IfOk result (λ w. w ≡ key_step key.now ++ way.now) }
{
    let whole = format!(in alloc; ".{key}{way}")?;
    Ok(Word::from_string(whole))
}

/// The fault that lies this way in the value at a key, or `NoMemory`.
pub fn at_key(alloc: Global, key: &str, way: &str) -> ReadError
    ensures { LiesAt (key_step key.now ++ way.now) result }
{
    match way_into(alloc, key, way) {
        Ok(whole) => ReadError::Fault(whole),
        Err(_) => ReadError::NoMemory,
    }
}

fn way_to_item(alloc: Global, number: usize, way: &str) -> Result<Word, NoMemory>
    ensures { IfOk result (λ w. w ≡ item_step number ++ way.now) }
{
    let whole = format!(in alloc; "[{number}]{way}")?;
    Ok(Word::from_string(whole))
}

/// The fault that lies this way in the item of this number, or `NoMemory`.
pub fn at_item(alloc: Global, number: usize, way: &str) -> ReadError
    ensures { LiesAt (item_step number ++ way.now) result }
{
    match way_to_item(alloc, number, way) {
        Ok(whole) => ReadError::Fault(whole),
        Err(_) => ReadError::NoMemory,
    }
}

// ---- texts and numbers

/// A copy of any text.
pub fn word_of(alloc: Global, text: &str) -> Result<Word, ReadError>
    ensures ok { IfOk result (λ word. word ≡ text.now) }
    ensures refused { IfErr result (λ e. e ≡ ReadError.NoMemory) }
{
    let word = Word::of(alloc, text)?;
    Ok(word)
}

/// Any text, copied.
#[derive(Drop)]
pub struct WordReader;

impl Reader for WordReader {
    type Read = Word;

    ghost reading = { λ _. read_word };

    fn read(&self, alloc: Global, value: &Json) -> Result<Word, ReadError> {
        match value.as_str() {
            Some(text) => word_of(alloc, text),
            None => Err(fault_here(alloc)),
        }
    }
}

/// A text that is a name, copied; any other value is a fault.
#[derive(Drop)]
pub struct NameReader;

impl Reader for NameReader {
    type Read = Name;

    ghost reading = { λ _. read_name };

    fn read(&self, alloc: Global, value: &Json) -> Result<Name, ReadError> {
        let Some(text) = value.as_str() else {
            return Err(fault_here(alloc));
        };
        match name_of(alloc, text.as_bytes()) {
            Ok(name) => Ok(name),
            Err(ValueError::WrongShape) => Err(fault_here(alloc)),
            Err(_) => Err(ReadError::NoMemory),
        }
    }
}

/// A number with neither fraction nor exponent, from `low` to `high`; any other value is a fault.
#[derive(Drop)]
pub struct NumberBetween {
    /// The least that is read.
    pub low: u32,
    /// The greatest that is read.
    pub high: u32,
}

impl Reader for NumberBetween {
    type Read = u32;

    ghost reading = { λ b. read_between b.low b.high };

    fn read(&self, alloc: Global, value: &Json) -> Result<u32, ReadError> {
        match value.as_u64() {
            Some(number) => {
                if self.low as u64 <= number && number <= self.high as u64 {
                    Ok(number as u32)
                } else {
                    Err(fault_here(alloc))
                }
            }
            None => Err(fault_here(alloc)),
        }
    }
}

// ---- arrays

/// What the item of this number is read as; the way to its fault begins at the array. Costs what the reader costs.
pub fn read_item<R: Reader>(
    alloc: Global,
    number: usize,
    reader: &R,
    value: &Json,
) -> Result<R::Read, ReadError>
    ensures ok { IfOk result (λ x. inside (item_step number) (R.reading reader.now (view value.now)) ≡ Ok x) }
    ensures refused { IfErr result (FaultsAs (inside (item_step number) (R.reading reader.now (view value.now)))) }
{
    match reader.read(alloc, value) {
        Ok(read) => Ok(read),
        Err(ReadError::Fault(way)) => Err(at_item(alloc, number, way.as_str())),
        Err(ReadError::NoMemory) => Err(ReadError::NoMemory),
    }
}

fn read_items<R: Reader>(
    alloc: Global,
    reader: &R,
    items: &[Json],
) -> Result<Seq<R::Read>, ReadError>
where
    R::Read: Drop,
    ensures ok { IfOk result (λ xs. read_items_from 0 (R.reading reader.now) (items_view items.now) ≡ Ok xs) }
    ensures refused { IfErr result (FaultsAs (read_items_from 0 (R.reading reader.now) (items_view items.now))) }
{
    let mut all = Seq::new(alloc);
    for value in items {
        let number = all.len();
        let read = read_item(alloc, number, reader, value)?;
        all.push(read)?;
    }
    Ok(all)
}

/// How many items an array may have.
#[derive(Clone, Copy, Drop)]
pub enum ItemCount {
    /// Any number, none included.
    Any,
    /// One or more.
    AtLeastOne,
    /// Exactly one.
    JustOne,
}

fn is_count_allowed(many: ItemCount, items: &[Json]) -> bool
    ensures { result ≡ is_count_allowed many (items_view items.now) }
{
    match many {
        ItemCount::Any => true,
        ItemCount::AtLeastOne => items.split_first().is_some(),
        ItemCount::JustOne => match items.split_first() {
            Some((_first, others)) => others.split_first().is_none(),
            None => false,
        },
    }
}

/// An array of this many items, each read by the same reader. A wrong number of items is a fault of the array, and is
/// looked at first; then the first fault of an item is reported.
#[derive(Drop)]
pub struct ArrayOf<R> {
    /// How many items there may be.
    pub many: ItemCount,
    /// How an item is read.
    pub of: R,
}

impl<R: Reader> Reader for ArrayOf<R>
where
    R::Read: Drop,
{
    type Read = Seq<R::Read>;

    ghost reading = { λ a. read_array_of a.many (R.reading a.of) };

    fn read(&self, alloc: Global, value: &Json) -> Result<Seq<R::Read>, ReadError> {
        let Some(items) = value.as_array() else {
            return Err(fault_here(alloc));
        };
        if !is_count_allowed(self.many, items.as_slice()) {
            return Err(fault_here(alloc));
        }
        read_items(alloc, &self.of, items.as_slice())
    }
}

// ---- objects

/// Whether a value is an object with this key. Costs one look-up in the object.
pub fn has_key(value: &Json, key: &str) -> bool
    ensures { result ≡ has_key key.now (view value.now) }
{
    value.get(key).is_some()
}

fn is_key(keys: &[&str], key: &str) -> bool
    ensures { result ≡ is_key (map (λ k. k.now) keys.now) key.now }
{
    match keys.split_first() {
        None => false,
        Some((first, rest)) => key == *first || is_key(rest, key),
    }
}

fn unknown_key<'v>(members: &'v Map<String, Json>, keys: &[&str]) -> Option<&'v str>
    ensures { option_map (λ k. k.now) result ≡ unknown_key (map (λ k. k.now) keys.now) (members_view members.now.entries) }
{
    // Members come in the order of their keys, so the first unknown key is the least one.
    for (key, _value) in members.iter() {
        if !is_key(keys, key.as_str()) {
            return Some(key.as_str());
        }
    }
    None
}

/// Checks that a value is an object with no keys but these few. Any other value is a fault; of several keys that aren't
/// allowed the least is reported. Linear in the keys that the object has, times these.
pub fn object_of(alloc: Global, value: &Json, keys: &[&str]) -> Result<(), ReadError>
    ensures ok { IfOk result (λ x. object_of (map (λ k. k.now) keys.now) (view value.now) ≡ Ok x) }
    ensures refused { IfErr result (FaultsAs (object_of (map (λ k. k.now) keys.now) (view value.now))) }
{
    let Some(members) = value.as_object() else {
        return Err(fault_here(alloc));
    };
    match unknown_key(members, keys) {
        Some(key) => Err(at_key(alloc, key, "")),
        None => Ok(()),
    }
}

fn read_at<R: Reader>(
    alloc: Global,
    key: &str,
    reader: &R,
    value: &Json,
) -> Result<R::Read, ReadError>
    ensures ok { IfOk result (λ x. inside (key_step key.now) (R.reading reader.now (view value.now)) ≡ Ok x) }
    ensures refused { IfErr result (FaultsAs (inside (key_step key.now) (R.reading reader.now (view value.now)))) }
{
    match reader.read(alloc, value) {
        Ok(read) => Ok(read),
        Err(ReadError::Fault(way)) => Err(at_key(alloc, key, way.as_str())),
        Err(ReadError::NoMemory) => Err(ReadError::NoMemory),
    }
}

/// What the value at a key is read as; a missing key is a fault of the object. Costs a look-up and what the reader costs.
pub fn read_key<R: Reader>(
    alloc: Global,
    value: &Json,
    key: &str,
    reader: &R,
) -> Result<R::Read, ReadError>
    ensures ok { IfOk result (λ x. read_key key.now (R.reading reader.now) (view value.now) ≡ Ok x) }
    ensures refused { IfErr result (FaultsAs (read_key key.now (R.reading reader.now) (view value.now))) }
{
    match value.get(key) {
        Some(found) => read_at(alloc, key, reader, found),
        None => Err(ReadError::Fault(Word::empty(alloc))),
    }
}

/// What the value at a key is read as, or `otherwise` where the key is missing. Costs a look-up and what the reader costs.
pub fn read_key_or<R: Reader>(
    alloc: Global,
    value: &Json,
    key: &str,
    reader: &R,
    otherwise: R::Read,
) -> Result<R::Read, ReadError>
where
    R::Read: Drop,
    ensures ok { IfOk result (λ x. read_key_or key.now (R.reading reader.now) otherwise (view value.now) ≡ Ok x) }
    ensures refused { IfErr result (FaultsAs (read_key_or key.now (R.reading reader.now) otherwise (view value.now))) }
{
    match value.get(key) {
        Some(found) => read_at(alloc, key, reader, found),
        None => Ok(otherwise),
    }
}

/// Checks that a key is missing; one that is there is reported by the way into its value. Costs a look-up.
pub fn no_key(alloc: Global, value: &Json, key: &str) -> Result<(), ReadError>
    ensures ok { IfOk result (λ x. no_key key.now (view value.now) ≡ Ok x) }
    ensures refused { IfErr result (FaultsAs (no_key key.now (view value.now))) }
{
    if has_key(value, key) {
        Err(at_key(alloc, key, ""))
    } else {
        Ok(())
    }
}

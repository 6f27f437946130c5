//! Duplicate names.
//!
//! Tables, streams and windows share one space of names, in which `inserted` is taken: by this word a trigger's
//! statements read the rows that it was started for.

ghost use Rattle.std.specs.Prelude.{◌≡◌, [], ◌∷◌, ◌++◌, List, map, codes, decimal, IfOk, IfNone, Some, None};
ghost use Rattle.std.specs.List.{flat_map};
ghost use Rattle.ss_names.specs.Names.{itself};
ghost use Rattle.ss_catalog_outline.specs.Twice.{Standing, standing, standing_behind, table_inside, stream_inside, window_inside, procedure_inside, touch_words, sources_standing, first_twice, name_twice};

use ss_catalog_json::Word;
use ss_catalog_outline::{
    Outline, ProcedureOutline, StreamOutline, TableOutline, TouchOutline, WindowOutline,
};
use ss_names::{NameSet, Named};
use ss_value::{NoMemory, Seq};
use std::alloc::Global;

/// Something with a name, and with further names inside it.
pub trait HasInnerNames: Named {
    ghost inside: { Self → List Standing };

    /// The first duplicate name inside it.
    fn twice_inside(&self, alloc: Global) -> Result<Option<Word>, NoMemory>
        ensures { IfOk result (λ twice. twice ≡ first_twice (inside self.now)) };
}

/// The first duplicate name in a list.
fn twice_in<T: Named>(alloc: Global, items: &[T]) -> Result<Option<Word>, NoMemory>
    ensures { IfOk result (λ twice. twice ≡ first_twice (standing T.name items.now)) }
{
    let mut seen = NameSet::new(alloc);
    for item in items {
        if !seen.insert(item.name())? {
            let name = Word::of(alloc, item.text())?;
            return Ok(Some(name));
        }
    }
    Ok(None)
}

/// The first duplicate among the names of a list and inside its items, where `seen` has the names before the list.
/// Where there is none, `seen` has the names of the list too.
fn twice_among<'a, T: HasInnerNames>(
    alloc: Global,
    seen: &mut NameSet<'a>,
    items: &'a [T],
) -> Result<Option<Word>, NoMemory>
    ensures ok { IfOk result (λ twice. twice ≡ first_twice (standing_behind T.name T.inside seen.old items.now)) }
    ensures seen { IfOk result (λ twice. IfNone twice (seen.new ≡ seen.old ++ map T.name items.now)) }
{
    for item in items {
        if !seen.insert(item.name())? {
            let name = Word::of(alloc, item.text())?;
            return Ok(Some(name));
        }
        if let Some(name) = item.twice_inside(alloc)? {
            return Ok(Some(name));
        }
    }
    Ok(None)
}

/// The first name that is a duplicate within one of these lists.
fn twice_in_one(alloc: Global, lists: &[Seq<Word>]) -> Result<Option<Word>, NoMemory>
    ensures { IfOk result (λ twice. twice ≡ first_twice (flat_map (standing itself) lists.now)) }
{
    for list in lists {
        if let Some(name) = twice_in(alloc, list.as_slice())? {
            return Ok(Some(name));
        }
    }
    Ok(None)
}

impl HasInnerNames for TableOutline {
    ghost inside = { table_inside };

    fn twice_inside(&self, alloc: Global) -> Result<Option<Word>, NoMemory> {
        if let Some(name) = twice_in(alloc, self.columns.as_slice())? {
            return Ok(Some(name));
        }
        if let Some(name) = twice_in(alloc, self.key.as_slice())? {
            return Ok(Some(name));
        }
        twice_in_one(alloc, self.indexes.as_slice())
    }
}

impl HasInnerNames for StreamOutline {
    ghost inside = { stream_inside };

    fn twice_inside(&self, alloc: Global) -> Result<Option<Word>, NoMemory> {
        twice_in(alloc, self.columns.as_slice())
    }
}

impl HasInnerNames for WindowOutline {
    ghost inside = { window_inside };

    fn twice_inside(&self, alloc: Global) -> Result<Option<Word>, NoMemory> {
        twice_in(alloc, self.columns.as_slice())
    }
}

/// A number in decimal.
fn decimal_word(alloc: Global, number: u8) -> Result<Word, NoMemory>
    ensures { IfOk result (λ word. word ≡ decimal number) }
{
    let digits = format!(in alloc; "{number}")?;
    Ok(Word::from_string(digits))
}

/// The parts of a `multi` in decimal: as words they are checked, and reported, as names are.
fn touch_words(alloc: Global, touch: &TouchOutline) -> Result<Seq<Word>, NoMemory>
    ensures { IfOk result (λ words. words ≡ touch_words touch.now) }
{
    match touch {
        TouchOutline::Multi(parts) => decimal_words(alloc, parts.as_slice()),
        _ => Ok(Seq::new(alloc)),
    }
}

/// Numbers in decimal.
fn decimal_words(alloc: Global, numbers: &[u8]) -> Result<Seq<Word>, NoMemory>
    ensures { IfOk result (λ words. words ≡ map decimal numbers.now) }
{
    let mut words = Seq::new(alloc);
    for number in numbers {
        let word = decimal_word(alloc, *number)?;
        words.push(word)?;
    }
    Ok(words)
}

impl HasInnerNames for ProcedureOutline {
    ghost inside = { procedure_inside };

    fn twice_inside(&self, alloc: Global) -> Result<Option<Word>, NoMemory> {
        if let Some(name) = twice_in(alloc, self.args.as_slice())? {
            return Ok(Some(name));
        }
        if let Some(name) = twice_in(alloc, self.inputs.as_slice())? {
            return Ok(Some(name));
        }
        let words = touch_words(alloc, &self.touch)?;
        twice_in(alloc, words.as_slice())
    }
}

/// The set of the word `inserted`, which no table, stream or window may have as its name.
fn set_of_inserted<'a>(alloc: Global) -> Result<NameSet<'a>, NoMemory>
    ensures { IfOk result (λ names. names ≡ codes "inserted" ∷ []) }
{
    let mut names = NameSet::new(alloc);
    names.insert(b"inserted")?;
    Ok(names)
}

/// The first duplicate name in the tables, streams and windows.
fn source_twice(alloc: Global, outline: &Outline) -> Result<Option<Word>, NoMemory>
    ensures { IfOk result (λ twice. twice ≡ first_twice (sources_standing outline.now)) }
{
    // One set for all three kinds, which share one space of names.
    let mut seen = set_of_inserted(alloc)?;
    if let Some(name) = twice_among(alloc, &mut seen, outline.tables.as_slice())? {
        return Ok(Some(name));
    }
    if let Some(name) = twice_among(alloc, &mut seen, outline.streams.as_slice())? {
        return Ok(Some(name));
    }
    twice_among(alloc, &mut seen, outline.windows.as_slice())
}

/// The first duplicate name in written order: among tables, streams, windows and the word `inserted`; among triggers;
/// among procedures; in one list of columns, arguments, key, index, inputs or `multi`, whose parts are reported in
/// decimal. None exactly where there is no duplicate.
pub fn name_twice(alloc: Global, outline: &Outline) -> Result<Option<Word>, NoMemory>
    ensures { IfOk result (λ twice. twice ≡ name_twice outline.now) }
{
    if let Some(name) = source_twice(alloc, outline)? {
        return Ok(Some(name));
    }
    if let Some(name) = twice_in(alloc, outline.triggers.as_slice())? {
        return Ok(Some(name));
    }
    let mut seen = NameSet::new(alloc);
    twice_among(alloc, &mut seen, outline.procedures.as_slice())
}

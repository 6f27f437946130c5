//! The bodies of the procedures, from bytes.

ghost use Rattle.std.specs.Prelude.{◌≡◌, ◌<◌, length, replicate, true, false, IfErr, IfOk, OnOk};
ghost use Rattle.std.specs.List.{range_with_len};
ghost use Rattle.ss_cmdlog.specs.Reading.{bytes_at};
ghost use Rattle.ss_model.specs.Accepted.{Accepted};
ghost use Rattle.ss_model.specs.Database.{has_body};
ghost use Rattle.ss_shard.specs.Bodies.{HasBodies, IsBodyNumber, text_numbered, texts_of};
ghost use Rattle.ss_standing.specs.ImageForm.{bodies_of, body_of};
ghost use Rattle.ss_standing.specs.Readers.{each};
ghost use Rattle.ss_snapshot.specs.declared.reading.fields.PartError.TheVariants.{NoMemory as OutOfMemory};
ghost use Rattle.ss_snapshot.specs.Bodies.{GrowsTo, HasNoBody, IsFurthest, UnlessMemory, text_of};
ghost use Rattle.ss_snapshot.specs.Own.{IsReadFromItsText};
ghost use Rattle.ss_snapshot.specs.Parts.{Reads};

use crate::reading::fields::{PartError, u32_in};
use ss_catalog::add_spare;
use ss_model::Catalog;
use ss_model_laws::spares_aside;
use ss_nest::{a_nested_value_has_one_answer, nested_body_of};
use ss_shard::body_number;
use ss_value::{NoMemory, Seq};
use std::alloc::Global;

/// So many bytes, whatever they are.
fn bytes_in(bytes: &[u8], count: usize) -> Result<(&[u8], &[u8]), PartError>
    ensures { Reads (λ x. (x.0.now, x.1.now)) result (bytes_at count bytes.now) }
{
    if bytes.len() < count {
        return Err(PartError::Foreign { left: 0 });
    }
    let (text, rest) = bytes.split_at(count);
    Ok((text, rest))
}

/// A text behind its length, whatever it says.
fn text_in(bytes: &[u8]) -> Result<(&[u8], &[u8]), PartError>
    ensures { Reads (λ x. (x.0.now, x.1.now)) result (text_of bytes.now) }
{
    let (length, rest) = u32_in(bytes)?;
    bytes_in(rest, length as usize)
}

/// Whether a procedure has a body with this text, which joins those to be installed where it is another than there are.
fn learn_body(
    alloc: Global,
    catalog: &mut Catalog,
    procedure: u16,
    text: &[u8],
) -> Result<bool, NoMemory>
    requires own { IsReadFromItsText catalog.old }
    requires accepted { Accepted catalog.old }
    requires within { procedure < length catalog.old.procedures }
    ensures grown { GrowsTo catalog.old catalog.new }
    ensures has { IfOk result (λ has. has ≡ true → has_body catalog.new procedure text.now ≡ true) }
    ensures none { IfOk result (λ has. has ≡ false → HasNoBody catalog.new procedure text.now) }
{
    // Laws: a text is one catalogue's, and with a body more a catalogue stays accepted.
    a_nested_value_has_one_answer();
    spares_aside();
    if catalog.has_body(usize::from(procedure), text) {
        return Ok(true);
    }
    match nested_body_of(alloc, catalog, procedure, text)? {
        None => Ok(false),
        Some(body) => {
            add_spare(alloc, catalog, procedure, body)?;
            Ok(true)
        }
    }
}

/// The bodies of an image that aren't the procedures' own join those to be installed, up to the first text that is no
/// body's, or the first that isn't there. So the bytes are read no further with whatever other bodies.
///
/// Costs as much as reading the catalogue for each body that is new.
fn learn_bodies(alloc: Global, bytes: &[u8], catalog: &mut Catalog) -> Result<(), NoMemory>
    requires own { IsReadFromItsText catalog.old }
    requires accepted { Accepted catalog.old }
    ensures grown { GrowsTo catalog.old catalog.new }
    ensures furthest { OnOk result (IsFurthest true catalog.new bytes.now) }
{
    // A law: a text is one catalogue's.
    a_nested_value_has_one_answer();
    let Ok(count) = u16::try_from(catalog.procedures.len()) else {
        return Err(NoMemory);
    };
    let mut rest = bytes;
    for procedure in 0..count {
        let (text, behind) = match text_in(rest) {
            Ok(read) => read,
            Err(PartError::NoMemory) => return Err(NoMemory),
            Err(PartError::Foreign { left: _ }) => return Ok(()),
        };
        if !learn_body(alloc, catalog, procedure, text)? {
            return Ok(());
        }
        rest = behind;
    }
    Ok(())
}

/// The number of the body of a procedure, one of those that the procedure may have. A text that is no body's is told at its
/// first byte. Linear in the texts of the procedure's bodies.
fn body_in<'a>(
    bytes: &'a [u8],
    catalog: &Catalog,
    procedure: u16,
) -> Result<(usize, &'a [u8]), PartError>
    ensures read { Reads (λ x. (text_numbered catalog.now procedure x.0, x.1.now)) result (body_of catalog.now procedure bytes.now) }
    ensures number { IfOk result (λ x. IsBodyNumber catalog.now procedure x.0) }
{
    let (text, rest) = text_in(bytes)?;
    match body_number(catalog, procedure, text) {
        Some(number) => Ok((number, rest)),
        None => Err(PartError::Foreign {
            left: text.len() + rest.len(),
        }),
    }
}

/// The numbers of the bodies of all procedures. Linear in the texts of all bodies.
fn numbers_in<'a>(
    alloc: Global,
    bytes: &'a [u8],
    catalog: &Catalog,
) -> Result<(Seq<usize>, &'a [u8]), PartError>
    ensures read { Reads (λ x. (texts_of catalog.now x.0, x.1.now)) result
        (each (body_of catalog.now) (range_with_len 0 (length catalog.now.procedures)) bytes.now) }
    ensures numbers { IfOk result (λ x. HasBodies catalog.now x.0) }
{
    let Ok(count) = u16::try_from(catalog.procedures.len()) else {
        return Err(PartError::NoMemory);
    };
    let mut numbers = Seq::new(alloc);
    let mut rest = bytes;
    for procedure in 0..count {
        let (number, behind) = body_in(rest, catalog, procedure)?;
        if numbers.push(number).is_err() {
            return Err(PartError::NoMemory);
        }
        rest = behind;
    }
    Ok((numbers, rest))
}

/// The numbers of the procedures' own bodies.
fn own_numbers(alloc: Global, catalog: &Catalog) -> Result<Seq<usize>, PartError>
    ensures own { IfOk result (λ numbers. numbers ≡ replicate (length catalog.now.procedures) 0) }
    ensures memory { IfErr result (λ e. e ≡ OutOfMemory) }
{
    let mut numbers = Seq::new(alloc);
    for _ in 0..catalog.procedures.len() {
        if numbers.push(0).is_err() {
            return Err(PartError::NoMemory);
        }
    }
    Ok(numbers)
}

/// The numbers of the bodies of all procedures in an image of this form. The bodies that aren't the procedures' own join
/// those to be installed, also where something behind them is refused.
pub(crate) fn bodies_in<'a>(
    alloc: Global,
    bytes: &'a [u8],
    catalog: &mut Catalog,
    bodies: bool,
) -> Result<(Seq<usize>, &'a [u8]), PartError>
    requires own { IsReadFromItsText catalog.old }
    requires accepted { Accepted catalog.old }
    ensures grown { GrowsTo catalog.old catalog.new }
    ensures read { Reads (λ x. (texts_of catalog.new x.0, x.1.now)) result (bodies_of bodies catalog.new bytes.now) }
    ensures numbers { IfOk result (λ x. HasBodies catalog.new x.0) }
    ensures furthest { IfOk result (λ x. IsFurthest bodies catalog.new bytes.now) }
    ensures no_further { IfErr result (λ e. UnlessMemory e (IsFurthest bodies catalog.new bytes.now)) }
{
    // A law: a text is one catalogue's.
    a_nested_value_has_one_answer();
    if !bodies {
        return Ok((own_numbers(alloc, catalog)?, bytes));
    }
    match learn_bodies(alloc, bytes, catalog) {
        Ok(()) => numbers_in(alloc, bytes, catalog),
        Err(_) => Err(PartError::NoMemory),
    }
}

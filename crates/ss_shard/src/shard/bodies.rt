//! Which body each procedure has, by number, and the one that is to come.
//!
//! A number, instead of the body itself, so that an install takes no memory: all bodies that may be installed stand in the
//! catalogue.

ghost use Rattle.std.specs.Prelude.{◌≡◌, ◌<◌, IfSome, None, Some, get_or, is_some, length, slice_get};
ghost use Rattle.ss_model.specs.declared.catalog.Procedure.{Procedure};
ghost use Rattle.ss_model.specs.Database.{Database, has_body, body_text, present};
ghost use Rattle.std.specs.Str.{bytes_eq};
ghost use Rattle.ss_shard.specs.Bodies.{IsBodyNumber, present_on, steps_numbered, text_numbered, with_coming};
ghost use Rattle.ss_shard.specs.Shards.{IsOf};
ghost use Rattle.ss_shard.specs.Windows.{HoldsDatabase};

use crate::shard::Shard;
use ss_model::{Catalog, Step};
use ss_value::Seq;

/// Whether two texts are the same.
fn is_same_text(one: &[u8], other: &[u8]) -> bool
    ensures { result ≡ bytes_eq one.now other.now }
{
    one == other
}

/// The number of the body of a procedure that has this text, its own before those that may be installed; None exactly where
/// it may have none with this text. Linear in the texts of these bodies; takes no memory.
pub fn body_number(catalog: &Catalog, procedure: u16, text: &[u8]) -> Option<usize>
    ensures some { IfSome result (λ k. (text_numbered catalog.now procedure k ≡ text.now) × IsBodyNumber catalog.now procedure k) }
    ensures there { is_some result ≡ has_body catalog.now procedure text.now }
{
    if is_same_text(catalog.own_text(usize::from(procedure)), text) {
        return Some(0);
    }
    let spares = catalog.spares_of(usize::from(procedure));
    for (place, body) in spares.iter().enumerate() {
        if is_same_text(body.text.as_slice(), text) {
            return Some(place + 1);
        }
    }
    None
}

/// The steps of the body of this number of a procedure, and its own steps where there is none. Constant.
fn steps_numbered<'a>(catalog: &'a Catalog, procedure: u16, number: usize) -> &'a [Step]
    requires { procedure < length catalog.now.procedures }
    ensures { (p : Procedure) → slice_get catalog.now.procedures procedure ≡ Some p → result.now ≡ steps_numbered catalog.now procedure number p }
{
    let own = catalog.procedures.at(usize::from(procedure));
    if number == 0 {
        return own.body.as_slice();
    }
    match catalog.spares_of(usize::from(procedure)).get(number - 1) {
        Some(body) => body.steps.as_slice(),
        None => own.body.as_slice(),
    }
}

/// The text of the body of this number of a procedure, and an empty one where there is none. Constant.
fn text_numbered<'a>(catalog: &'a Catalog, procedure: u16, number: usize) -> &'a [u8]
    ensures { result.now ≡ text_numbered catalog.now procedure number }
{
    if number == 0 {
        return catalog.own_text(usize::from(procedure));
    }
    match catalog.spares_of(usize::from(procedure)).get(number - 1) {
        Some(body) => body.text.as_slice(),
        None => &[],
    }
}

/// These numbers are written over those of another list. Linear in them; takes no memory.
pub fn write_over(numbers: &[usize], over: &mut Seq<usize>)
    requires { length over.old ≡ length numbers.now }
    ensures { over.new ≡ numbers.now }
{
    for (place, number) in numbers.iter().enumerate() {
        over.put(place, *number);
    }
}

/// Gives a procedure the body that is to come, if there is one, and then none is. Constant.
pub fn end_coming(coming: &mut Option<(u16, usize)>, bodies: &mut Seq<usize>)
    ensures none { coming.new ≡ None }
    ensures bodies { bodies.new ≡ with_coming coming.old bodies.old }
{
    if let Some((procedure, number)) = *coming {
        if let Some(body) = bodies.get_mut(usize::from(procedure)) {
            *body = number;
        }
    }
    *coming = None;
}

impl Shard {
    /// The number of the body that each procedure has, by number of the procedure. Constant.
    pub fn bodies(&self) -> &[usize]
        ensures { result.now ≡ self.now.bodies }
    {
        self.bodies.as_slice()
    }

    /// This shard with these numbers of bodies in place of its own, which are let go. For a shard that is made of an image.
    /// Constant, but for letting go; takes no memory.
    pub fn with_bodies(self, bodies: Seq<usize>) -> Shard
        ensures { result ≡ record self { bodies = bodies } }
    {
        Shard { bodies, ..self }
    }

    /// The number of the body that a procedure has: 0 where there is none of this number. Constant.
    fn number_of_body(&self, procedure: u16) -> usize
        ensures { result ≡ get_or self.now.bodies procedure 0 }
    {
        match self.bodies.get(usize::from(procedure)) {
            Some(number) => *number,
            None => 0,
        }
    }

    /// The steps of the body that a procedure has, here and in each database that the shard stands for. Constant.
    pub fn body<'a>(&self, catalog: &'a Catalog, procedure: u16) -> &'a [Step]
        requires { procedure < length catalog.now.procedures }
        ensures here { (p : Procedure) → slice_get catalog.now.procedures procedure ≡ Some p
            → result.now ≡ (present_on catalog.now self.now procedure p).body }
        ensures held { (p : Procedure) (db : Database) → slice_get catalog.now.procedures procedure ≡ Some p → IsOf catalog.now self.now
            → HoldsDatabase catalog.now self.now db → result.now ≡ (present catalog.now db procedure p).body }
    {
        steps_numbered(catalog, procedure, self.number_of_body(procedure))
    }

    /// The text of the body that a procedure has, here and in each database that the shard stands for. Constant.
    pub fn body_text<'a>(&self, catalog: &'a Catalog, procedure: u16) -> &'a [u8]
        requires { procedure < length self.now.bodies }
        ensures here { result.now ≡ text_numbered catalog.now procedure (get_or self.now.bodies procedure 0) }
        ensures held { (db : Database) → HoldsDatabase catalog.now self.now db → result.now ≡ body_text db procedure }
    {
        text_numbered(catalog, procedure, self.number_of_body(procedure))
    }

    /// Notes that a procedure is to have the body of this number. It has it from the commit on, and a rollback drops it.
    /// Constant; takes no memory.
    pub fn install(&mut self, procedure: u16, number: usize)
        ensures { self.new ≡ record self.old { coming = Some (procedure, number) } }
    {
        self.coming = Some((procedure, number));
    }
}

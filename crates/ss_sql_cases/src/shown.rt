//! What `{}` prints of the trees, each into the text that is being made and none into a text of its own.
//!
//! The trees are types of other crates, so `Show` says how each is printed, and `Shown` stands round a reference to one.

use ss_case_files::Wrong;
use std::alloc::Global;
use std::fmt;

/// What has a form in the rows of cases.
pub trait Show {
    /// Prints its form, in time linear in it. Fails where the writer does, and at a refusal for want of memory, which has
    /// no form.
    fn show<W: fmt::Write>(&self, f: &mut fmt::Formatter<W>) -> fmt::Result;
}

/// A value in its form.
#[derive(Drop)]
pub struct Shown<'a, T>(pub &'a T);

impl<T: Show> fmt::Display for Shown<'_, T> {
    fn fmt<W: fmt::Write>(&self, f: &mut fmt::Formatter<W>) -> fmt::Result {
        self.0.show(f)
    }
}

/// A mark and a value behind it; nothing where there is no value.
#[derive(Drop)]
pub struct ShownIfAny<'a, T>(pub &'a str, pub &'a Option<T>);

impl<T: Show> fmt::Display for ShownIfAny<'_, T> {
    fn fmt<W: fmt::Write>(&self, f: &mut fmt::Formatter<W>) -> fmt::Result {
        match self.1 {
            Some(value) => {
                f.write_str(self.0)?;
                value.show(f)
            }
            None => Ok(()),
        }
    }
}

/// A mark and values behind it, with a comma between two; nothing where there is no value.
#[derive(Drop)]
pub struct ShownList<'a, T>(pub &'a str, pub &'a [T]);

impl<T: Show> fmt::Display for ShownList<'_, T> {
    fn fmt<W: fmt::Write>(&self, f: &mut fmt::Formatter<W>) -> fmt::Result {
        let mut mark = self.0;
        for value in self.1 {
            f.write_str(mark)?;
            value.show(f)?;
            mark = ",";
        }
        Ok(())
    }
}

/// Prints a text behind what was printed before it, where that went well.
pub fn show_behind<W: fmt::Write>(
    before: fmt::Result,
    f: &mut fmt::Formatter<W>,
    text: &str,
) -> fmt::Result {
    before?;
    f.write_str(text)
}

/// What was asked for in its form, or its refusal. Wrong where memory is wanting.
pub fn shown_answer<T: Show + Drop, E: Show + Drop>(
    alloc: Global,
    answer: Result<T, E>,
) -> Result<String, Wrong> {
    let shown = match &answer {
        Ok(value) => Shown(value).to_string(alloc),
        Err(refusal) => Shown(refusal).to_string(alloc),
    };
    Ok(shown?)
}

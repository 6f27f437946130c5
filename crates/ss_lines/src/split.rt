//! Lines out of the pieces of an input, as they come.

ghost use Rattle.std.specs.Prelude.{◌≡◌, ◌<◌, ◌≤◌, ◌+◌, ◌^◌, ℕ, List, [], ◌∷◌, ◌++◌, length, IsTrue, IfOk, OnOk, MatchOption};
ghost use Rattle.ss_lines.specs.Lines.{is_blank, is_one_line, lines_of, IsFirstLine};

use crate::line::Line;
use ss_value::{NoMemory, Seq};
use std::alloc::Global;

/// The lines so far, and the one that has begun.
///
/// A line's bytes are copied into `current`, and the whole of it is then moved into `lines`.
#[derive(Drop)]
pub(crate) struct Splitter {
    alloc: Global,
    lines: Seq<Line>,
    /// The number of the line that has begun.
    number: u64,
    current: Vec<u8>,
    ghost one_line: { IsTrue (is_one_line current.items) },
}

/// The bytes before the first line feed, and those behind it, in time linear in the former.
fn split_line(bytes: &[u8]) -> Option<(&[u8], &[u8])>
    ensures { MatchOption result (IsTrue (is_one_line bytes.now)) (λ p. IsFirstLine bytes.now p.0.now p.1.now) }
{
    for (at, byte) in bytes.iter().enumerate() {
        if *byte == b'\n' {
            let (line, ending) = bytes.split_at(at);
            let (_, behind) = ending.split_at(1);
            return Some((line, behind));
        }
    }
    None
}

/// Whether a line has no bytes but spaces, tabs and carriage returns.
fn is_blank(line: &[u8]) -> bool
    ensures { result ≡ is_blank line.now }
{
    line.iter()
        .all(|c| *c == b' ' || *c == b'\t' || *c == b'\r')
}

impl Splitter {
    ghost use Rattle.ss_lines.specs.Splitting.{lines_with, Takes};

    /// A splitter that has taken nothing.
    pub fn new(alloc: Global) -> Splitter
        ensures lines { (input : List ℕ) → lines_with result input ≡ lines_of input }
        ensures number { result.number ≡ 1 }
    {
        Splitter {
            alloc,
            lines: Seq::new(alloc),
            number: 1,
            current: Vec::new(alloc),
        }
    }

    /// Takes bytes that have no line feed.
    fn extend(&mut self, piece: &[u8]) -> Result<(), NoMemory>
        requires { IsTrue (is_one_line piece.now) }
        ensures ok { OnOk result (Takes self.old self.new piece.now) }
        ensures unchanged { self.new.number ≡ self.old.number }
    {
        self.current.extend_from_slice(piece)?;
        Ok(())
    }

    /// Moves the line that has begun to the others, unless it is blank.
    fn push_line(&mut self) -> Result<(), NoMemory>
        ensures ok { OnOk result (self.new.lines ≡ lines_with self.old []) }
        ensures current { OnOk result (self.new.current.items ≡ []) }
        ensures unchanged { self.new.number ≡ self.old.number }
    {
        if is_blank(self.current.as_slice()) {
            // A blank line leaves its memory to the next one.
            self.current.clear();
            return Ok(());
        }
        let bytes = std::mem::replace(&mut self.current, Vec::new(self.alloc));
        let line = Line {
            number: self.number,
            bytes: Seq::from_vec(bytes),
        };
        self.lines.push(line)?;
        Ok(())
    }

    /// Takes a line feed.
    fn end_line(&mut self) -> Result<(), NoMemory>
        requires { self.old.number + 1 < 2 ^ 64 }
        ensures ok { OnOk result (Takes self.old self.new (10 ∷ [])) }
        ensures number { OnOk result (self.new.number ≡ self.old.number + 1) }
    {
        self.push_line()?;
        self.number += 1;
        Ok(())
    }

    /// Takes the next bytes of the input.
    ///
    /// Time is linear in the bytes, each of which is copied once. A line that comes in several
    /// pieces is moved when its memory has to grow, in time linear in its bytes.
    pub fn take(&mut self, bytes: &[u8]) -> Result<(), NoMemory>
        requires { self.old.number + length bytes.now < 2 ^ 64 }
        ensures ok { OnOk result (Takes self.old self.new bytes.now) }
        ensures number { OnOk result (self.new.number ≤ self.old.number + length bytes.now) }
    {
        let mut rest = bytes;
        while let Some((line, behind)) = split_line(rest) {
            self.extend(line)?;
            self.end_line()?;
            rest = behind;
        }
        self.extend(rest)?;
        Ok(())
    }

    /// The lines, where the input ends here. The last one may have no line feed.
    pub fn finish(self) -> Result<Seq<Line>, NoMemory>
        ensures { IfOk result (λ lines. lines ≡ lines_with self []) }
    {
        let mut splitter = self;
        splitter.push_line()?;
        let Splitter { lines, .. } = splitter;
        Ok(lines)
    }
}

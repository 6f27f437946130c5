//! One case file, block after block, and those of the command line.

use crate::bases::Bases;
use crate::case::{Behind, Block, BlockForm, Case};
use crate::wrong::{Wrong, reason_of};
use std::alloc::Global;
use std::process::ExitCode;
use std::rt::{Env, Files};
use std::{env, fs, io};

/// The word of a block whose lines are a text that other blocks name.
const BASE: &str = "base";

/// How many cases ran, and how many of them, and of the other parts of files, are wrong.
#[derive(Drop)]
struct Count {
    cases: u64,
    wrong: u64,
}

impl Count {
    /// No case.
    fn new() -> Count {
        Count { cases: 0, wrong: 0 }
    }

    /// Adds the cases of another count.
    fn add(&mut self, other: &Count) {
        self.cases = self.cases.saturating_add(other.cases);
        self.wrong = self.wrong.saturating_add(other.wrong);
    }

    /// Whether cases ran and nothing is wrong.
    fn is_well(&self) -> bool {
        self.cases > 0 && self.wrong == 0
    }
}

/// The file that is being read.
#[derive(Drop)]
struct Reader<'a, R> {
    rt: &'a R,
    name: &'a str,
    /// The folder of the file, with its slash; empty where the name has none.
    folder: &'a str,
    bases: &'a mut Bases,
    count: Count,
}

impl<'a, R: Print> Reader<'a, R> {
    /// Reports what is wrong at a line, if anything is.
    fn report(&mut self, number: u64, outcome: Result<(), Wrong>) -> io::Result<()> {
        let Err(wrong) = outcome else {
            return Ok(());
        };
        self.count.wrong = self.count.wrong.saturating_add(1);
        let name = self.name;
        let reason = wrong.as_str();
        println!(self.rt; "{name}:{number} {reason}")
    }

    /// Counts a case that ran, and reports what is wrong with it.
    fn report_case(&mut self, number: u64, outcome: Result<(), Wrong>) -> io::Result<()> {
        self.count.cases = self.count.cases.saturating_add(1);
        self.report(number, outcome)
    }
}

impl<'a, R: Print + AllocGlobal> Reader<'a, R> {
    /// Runs the rows of a block, each of which is a case.
    fn run_rows<F: Fn(&Case) -> Result<(), Wrong>>(
        &mut self,
        check: &F,
        block: &Block,
        base: &str,
    ) -> io::Result<()>
        requires { F.IsAlwaysCallable check.now }
    {
        let folder = self.folder;
        let mut number = block.number;
        for row in &block.lines {
            number = number.saturating_add(1);
            let row = row.as_str();
            if !row.starts_with('#') {
                let outcome = check(&Case {
                    folder,
                    block,
                    base,
                    row,
                });
                self.report_case(number, outcome)?;
            }
        }
        Ok(())
    }

    /// The text of the base that a block names; empty where its kind has none.
    fn base_of(&self, block: &Block, behind: Behind) -> Result<String, Wrong> {
        let alloc = self.rt.alloc();
        match behind {
            Behind::Word => Ok(String::new(alloc)),
            Behind::Nothing if block.name.is_empty() => Ok(String::new(alloc)),
            Behind::Nothing => Err(Wrong::text(alloc, "this kind of block has no base")),
            Behind::Base => match self.bases.text_of(block.name.as_str()) {
                Some(text) => Ok(String::from_str(alloc, text)?),
                None => Err(Wrong::text(alloc, "no base has that name")),
            },
        }
    }

    /// Runs a block of one of the program's kinds.
    fn run_kind<G: Fn(&str) -> Option<BlockForm>, F: Fn(&Case) -> Result<(), Wrong>>(
        &mut self,
        form_of: &G,
        check: &F,
        block: &Block,
    ) -> io::Result<()>
        requires form_of { G.IsAlwaysCallable form_of.now }
        requires check { F.IsAlwaysCallable check.now }
    {
        let Some(form) = form_of(block.word.as_str()) else {
            let wrong = Wrong::text(self.rt.alloc(), "no kind of block has that word");
            return self.report(block.number, Err(wrong));
        };
        let base = match self.base_of(block, form.behind) {
            Ok(base) => base,
            Err(wrong) => return self.report(block.number, Err(wrong)),
        };
        if form.has_rows {
            return self.run_rows(check, block, base.as_str());
        }
        let outcome = check(&Case {
            folder: self.folder,
            block,
            base: base.as_str(),
            row: "",
        });
        self.report_case(block.number, outcome)
    }

    /// Runs a block of which every line has been read.
    fn run_block<G: Fn(&str) -> Option<BlockForm>, F: Fn(&Case) -> Result<(), Wrong>>(
        &mut self,
        form_of: &G,
        check: &F,
        block: &Block,
    ) -> io::Result<()>
        requires form_of { G.IsAlwaysCallable form_of.now }
        requires check { F.IsAlwaysCallable check.now }
    {
        let alloc = self.rt.alloc();
        if block.lines.is_empty() {
            let wrong = Wrong::text(alloc, "a block without a line");
            return self.report(block.number, Err(wrong));
        }
        if block.word.as_str() != BASE {
            return self.run_kind(form_of, check, block);
        }
        let name = block.name.as_str();
        let outcome = self.bases.add(alloc, name, block.lines.as_slice());
        self.report(block.number, outcome)
    }

    /// Reads a line of a file: it goes into the open block, closes and runs it, or opens one.
    fn run_line<G: Fn(&str) -> Option<BlockForm>, F: Fn(&Case) -> Result<(), Wrong>>(
        &mut self,
        form_of: &G,
        check: &F,
        open: &mut Option<Block>,
        line: &str,
        number: u64,
    ) -> io::Result<()>
        requires form_of { G.IsAlwaysCallable form_of.now }
        requires check { F.IsAlwaysCallable check.now }
    {
        let alloc = self.rt.alloc();
        match open {
            Some(block) if !line.is_empty() => add_line(alloc, block, line),
            Some(block) => {
                let outcome = self.run_block(form_of, check, block);
                *open = None;
                outcome
            }
            None => {
                *open = block_opening(alloc, line, number)?;
                Ok(())
            }
        }
    }

    /// Reads the lines of a file and runs its blocks.
    fn run_lines<G: Fn(&str) -> Option<BlockForm>, F: Fn(&Case) -> Result<(), Wrong>>(
        &mut self,
        form_of: &G,
        check: &F,
        text: &str,
    ) -> io::Result<()>
        requires form_of { G.IsAlwaysCallable form_of.now }
        requires check { F.IsAlwaysCallable check.now }
    {
        let mut open: Option<Block> = None;
        let mut number = 0u64;
        for line in text.split('\n') {
            number = number.saturating_add(1);
            self.run_line(form_of, check, &mut open, line, number)?;
        }
        // Behind the last line feed stands an empty line, which has closed the last block.
        if open.is_none() {
            return Ok(());
        }
        let wrong = Wrong::text(self.rt.alloc(), "the last line has no end");
        self.report(number, Err(wrong))
    }
}

/// Adds a line to a block.
fn add_line(alloc: Global, block: &mut Block, line: &str) -> io::Result<()> {
    let line = String::from_str(alloc, line)?;
    block.lines.push(line)?;
    Ok(())
}

/// The block that a line opens; None where the line is empty or a comment.
fn block_opening(alloc: Global, line: &str, number: u64) -> io::Result<Option<Block>> {
    if line.is_empty() || line.starts_with('#') {
        return Ok(None);
    }
    let (word, name) = line.split_once(' ').unwrap_or((line, ""));
    let word = String::from_str(alloc, word)?;
    let name = String::from_str(alloc, name)?;
    let lines = Vec::new(alloc);
    Ok(Some(Block {
        word,
        name,
        number,
        lines,
    }))
}

/// The folder of a file, with its slash; empty where the file's name has none.
fn folder_of(name: &str) -> &str {
    match name.rsplit_once('/') {
        Some((_, file)) => name.strip_suffix(file).unwrap_or(""),
        None => "",
    }
}

/// The number of the line that a byte stands on, from 1 on.
fn line_at(bytes: &[u8], at: usize) -> u64 {
    let mut number = 1u64;
    for byte in bytes.iter().take(at) {
        if *byte == b'\n' {
            number = number.saturating_add(1);
        }
    }
    number
}

/// The text of a file, or the line at which it can't be read, and why.
fn text_in<R: Files + AllocGlobal>(rt: &R, name: &str) -> Result<String, (u64, Wrong)> {
    let alloc = rt.alloc();
    let bytes = match fs::read(rt, name) {
        Ok(bytes) => bytes,
        Err(error) => return Err((0, reason_of(alloc, &error))),
    };
    match std::str::from_utf8(bytes.as_slice()) {
        Ok(text) => String::from_str(alloc, text).map_err(|_| (0, Wrong::NoMemory)),
        Err(error) => {
            let number = line_at(bytes.as_slice(), error.valid_up_to());
            Err((number, Wrong::text(alloc, "no UTF-8")))
        }
    }
}

/// Runs the cases of a file, and adds its bases. A file without a case is wrong.
fn run_file<
    R: Files + Print + AllocGlobal,
    G: Fn(&str) -> Option<BlockForm>,
    F: Fn(&Case) -> Result<(), Wrong>,
>(rt: &R, form_of: &G, check: &F, bases: &mut Bases, name: &str) -> io::Result<Count>
    requires form_of { G.IsAlwaysCallable form_of.now }
    requires check { F.IsAlwaysCallable check.now }
{
    let mut reader = Reader {
        rt,
        name,
        folder: folder_of(name),
        bases,
        count: Count::new(),
    };
    match text_in(rt, name) {
        Ok(text) => reader.run_lines(form_of, check, text.as_str())?,
        Err((number, wrong)) => reader.report(number, Err(wrong))?,
    }
    // A file that runs nothing would pass without a word.
    if reader.count.cases == 0 {
        reader.report(0, Err(Wrong::text(rt.alloc(), "no case")))?;
    }
    Ok(reader.count)
}

/// Runs a file, prints its line, and adds its cases to the total.
fn add_file<
    R: Files + Print + AllocGlobal,
    G: Fn(&str) -> Option<BlockForm>,
    F: Fn(&Case) -> Result<(), Wrong>,
>(
    rt: &R,
    form_of: &G,
    check: &F,
    bases: &mut Bases,
    total: &mut Count,
    name: &str,
) -> io::Result<()>
    requires form_of { G.IsAlwaysCallable form_of.now }
    requires check { F.IsAlwaysCallable check.now }
{
    let count = run_file(rt, form_of, check, bases, name)?;
    total.add(&count);
    let cases = count.cases;
    println!(rt; "{name} {cases}")
}

/// Prints the line of the totals.
fn print_total<R: Print>(rt: &R, total: &Count) -> io::Result<()> {
    let cases = total.cases;
    let wrong = total.wrong;
    println!(rt; "cases {cases} wrong {wrong}")
}

/// Runs the files that the command line names, and prints a line for each and the totals.
fn count_files<
    R: Env + Files + Print + AllocGlobal,
    G: Fn(&str) -> Option<BlockForm>,
    F: Fn(&Case) -> Result<(), Wrong>,
>(rt: &R, form_of: &G, check: &F) -> io::Result<Count>
    requires form_of { G.IsAlwaysCallable form_of.now }
    requires check { F.IsAlwaysCallable check.now }
{
    let mut total = Count::new();
    let names = env::args(rt)?;
    let mut bases = Bases::new(rt.alloc());
    for name in names.skip(1) {
        add_file(rt, form_of, check, &mut bases, &mut total, name.as_str())?;
    }
    print_total(rt, &total)?;
    Ok(total)
}

/// Runs the case files that the command line names, in its order, and prints a line for each, its name and its number of
/// cases, and a last one with the totals. A case that comes out differently, and a file or a block that can't be read, is
/// reported before its file's line as `FILE:LINE`. A base of one file is known in those behind it.
///
/// `form_of` says how blocks that begin with a word are read, and None where the program has no such kind; `check` runs a
/// case. The program ends with 0 where cases ran and none is wrong, and with 1 otherwise.
pub fn run_files<
    R: Env + Files + Print + Eprint + AllocGlobal,
    G: Fn(&str) -> Option<BlockForm>,
    F: Fn(&Case) -> Result<(), Wrong>,
>(rt: &R, form_of: &G, check: &F) -> ExitCode
    requires form_of { G.IsAlwaysCallable form_of.now }
    requires check { F.IsAlwaysCallable check.now }
{
    match count_files(rt, form_of, check) {
        Ok(count) if count.is_well() => ExitCode::from(0),
        Ok(_) => ExitCode::from(1),
        Err(error) => {
            // Where this fails too, only the status is left to say so.
            let _printed = eprintln!(rt; "{error}");
            ExitCode::from(1)
        }
    }
}

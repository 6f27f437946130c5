//! The kinds of blocks, and what runs each.

use crate::calls::check_calls;
use crate::run::check_run;
use crate::{examples, inputs, listings, requests};
use ss_case_files::{Behind, BlockForm, Case, Wrong};
use std::rt::Files;
use std::sync::Wait;
use std::thread::Threads;

/// The kind of a block. The module that runs it says what its lines mean.
#[derive(Clone, Copy, Debug, PartialEq, Eq, Drop)]
enum BlockKind {
    Rows,
    Alone,
    Fill,
    Edit,
    Words,
    Both,
    Requests,
    Report,
    Tables,
    Audited,
    Calls,
    Run,
    First,
    Script,
    Misfit,
    Queries,
    Bodies,
    List,
}

impl BlockKind {
    /// The kind with this word, if there is one.
    fn of(word: &str) -> Option<BlockKind> {
        match word {
            "rows" => Some(BlockKind::Rows),
            "alone" => Some(BlockKind::Alone),
            "fill" => Some(BlockKind::Fill),
            "edit" => Some(BlockKind::Edit),
            "words" => Some(BlockKind::Words),
            "both" => Some(BlockKind::Both),
            "requests" => Some(BlockKind::Requests),
            "report" => Some(BlockKind::Report),
            "tables" => Some(BlockKind::Tables),
            "audited" => Some(BlockKind::Audited),
            "calls" => Some(BlockKind::Calls),
            "run" => Some(BlockKind::Run),
            "first" => Some(BlockKind::First),
            "script" => Some(BlockKind::Script),
            "misfit" => Some(BlockKind::Misfit),
            "queries" => Some(BlockKind::Queries),
            "bodies" => Some(BlockKind::Bodies),
            "list" => Some(BlockKind::List),
            _ => None,
        }
    }

    /// What stands behind its word.
    fn behind(self) -> Behind {
        match self {
            BlockKind::Rows | BlockKind::Run | BlockKind::First => Behind::Nothing,
            _ => Behind::Base,
        }
    }

    /// Whether each line of the block is a case.
    fn has_rows(self) -> bool {
        !matches!(
            self,
            BlockKind::Report
                | BlockKind::Tables
                | BlockKind::Audited
                | BlockKind::Calls
                | BlockKind::Script
                | BlockKind::Misfit
                | BlockKind::List
        )
    }
}

/// How blocks with this word are read, where there is such a kind.
pub fn form_of(word: &str) -> Option<BlockForm> {
    let kind = BlockKind::of(word)?;
    Some(BlockForm {
        behind: kind.behind(),
        has_rows: kind.has_rows(),
    })
}

/// Runs a case.
pub fn check<R: Files + AllocGlobal + Threads + Wait + Sync>(
    rt: &R,
    case: &Case,
) -> Result<(), Wrong> {
    let (folder, base, row) = (case.folder, case.base, case.row);
    let lines = case.block.lines.as_slice();
    match BlockKind::of(case.block.word.as_str()) {
        Some(BlockKind::Rows) => inputs::check_input(rt, row),
        Some(BlockKind::Alone) => check_run(rt, base, row),
        Some(BlockKind::Fill) => inputs::check_fill(rt, base, row),
        Some(BlockKind::Edit) => inputs::check_edit(rt, base, row),
        Some(BlockKind::Words) => requests::check_command(rt, base, row),
        Some(BlockKind::Both) => inputs::check_both(rt, base, row),
        Some(BlockKind::Requests) => requests::check_requests(rt, base, row),
        Some(BlockKind::Run) => examples::check_files(rt, folder, row),
        Some(BlockKind::First) => examples::check_first(rt, folder, row),
        Some(BlockKind::Queries) => listings::check_query(rt, base, row),
        Some(BlockKind::Bodies) => listings::check_body(rt, base, row),
        Some(BlockKind::Report) => requests::check_block(rt, base, lines),
        Some(BlockKind::Tables) => requests::check_tables(rt, base, lines),
        Some(BlockKind::Audited) => requests::check_audited(rt, base, lines),
        Some(BlockKind::Calls) => check_calls(rt, base, lines),
        Some(BlockKind::Script) => listings::check_script(rt, base, lines),
        Some(BlockKind::Misfit) => listings::check_misfit(rt, base, lines),
        Some(BlockKind::List) => listings::check_list(rt, base, lines),
        None => Err(Wrong::text(rt.alloc(), "no kind has that word")),
    }
}

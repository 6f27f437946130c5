//! The summary of a list in one line.

ghost use Rattle.std.specs.Prelude.{◌≡◌, IfOk, count_by};
ghost use Rattle.ss_model.specs.declared.entry.Listed.{Listed as ListedEntry};
ghost use Rattle.ss_model.specs.Report.{is_done_push, is_step, voter_text};

use crate::lines::voter_json;
use crate::write::append_line;
use ss_model::{Entry, Listed, Outcome};
use ss_value::{NoMemory, Seq};
use std::alloc::Global;

/// Whether this entry is a push whose batch was accepted.
fn is_done_push(listed: &Listed) -> bool
    ensures { result ≡ is_done_push listed.now.entry listed.now.outcome }
{
    match (&listed.entry, &listed.outcome) {
        (Entry::Push { .. }, Outcome::Done(_)) => true,
        _ => false,
    }
}

/// Whether this entry is a step.
fn is_step(listed: &Listed) -> bool
    ensures { result ≡ is_step listed.now.entry }
{
    match &listed.entry {
        Entry::Step { .. } => true,
        _ => false,
    }
}

/// The number of pushes whose batch was accepted.
fn pushes_done(list: &[Listed]) -> usize
    ensures { result ≡ count_by (λ (l : ListedEntry). is_done_push l.entry l.outcome) list.now }
{
    let mut count = 0;
    for listed in list {
        if is_done_push(listed) {
            count += 1;
        }
    }
    count
}

/// The number of steps.
fn steps(list: &[Listed]) -> usize
    ensures { result ≡ count_by (λ (l : ListedEntry). is_step l.entry) list.now }
{
    let mut count = 0;
    for listed in list {
        if is_step(listed) {
            count += 1;
        }
    }
    count
}

/// The bytes of the summary of a list, for which `votes` votes were asked for. Linear in the list.
pub fn summary_bytes(alloc: Global, votes: u64, list: &[Listed]) -> Result<Seq<u8>, NoMemory>
    ensures { IfOk result (λ bytes. bytes ≡ voter_text votes list.now) }
{
    let pushed = pushes_done(list) as u64;
    let steps = steps(list) as u64;
    let line = voter_json(alloc, votes, pushed, steps, list.len() as u64)?;
    let mut out = Vec::new(alloc);
    append_line(alloc, &mut out, &line)?;
    Ok(Seq::from_vec(out))
}

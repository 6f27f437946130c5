//! The calls, pushes and installs among those that ran.

ghost use Rattle.std.specs.Prelude.{◌≡◌, not, take, IfOk};
ghost use Rattle.ss_model.specs.Report.{is_step};
ghost use Rattle.ss_weak_replay.specs.WeakReplaying.{asked_listed};

use ss_model::{Entry, Listed};
use ss_value::{NoMemory, Reserved, Seq};
use std::alloc::Global;

/// Whether an entry is a call, a push or an install, and no step.
fn is_asked(entry: &Entry) -> bool
    ensures { result ≡ not (is_step entry.now) }
{
    !matches!(entry, Entry::Step { .. })
}

/// The first so many entries of clients in a list, or all of them where there are fewer. They are moved, and the others let go.
///
/// Linear in the list. Room for them is made once.
pub(crate) fn first_asked(
    alloc: Global,
    list: Seq<Listed>,
    most: usize,
) -> Result<Seq<Listed>, NoMemory>
    ensures { IfOk result (λ asked. asked ≡ take most (asked_listed list)) }
{
    let mut asked = Reserved::new(alloc);
    asked.reserve(most)?;
    for listed in list.into_vec() {
        if asked.len() < most && is_asked(&listed.entry) {
            asked.add(listed);
        }
    }
    Ok(asked.into_seq())
}

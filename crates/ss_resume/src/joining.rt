//! What stays with what follows it, for `past`. Items are moved and never copied, however deep they are.

ghost use Rattle.std.specs.Prelude.{◌≡◌, ◌++◌, take, IfOk};
ghost use Rattle.ss_resume.specs.Pasts.{joined_lists};

use crate::staying::resume_at;
use ss_model::Answer;
use ss_value::{NoMemory, Seq};
use std::alloc::Global;

/// The first items, as many as are told, and behind them others. Linear in the items that are cut off, which are let go, and in
/// those that are added. Where there is no room for these, the whole list moves to a bigger block, as with a push.
///
/// Out of memory loses both.
pub(crate) fn cut_and_joined<T: Drop>(
    items: Seq<T>,
    count: usize,
    others: Seq<T>,
) -> Result<Seq<T>, NoMemory>
    ensures { IfOk result (λ all. all ≡ take count items ++ others) }
{
    let mut all = items.into_vec();
    all.truncate(count);
    let mut others = others.into_vec();
    all.append(&mut others)?;
    Ok(Seq::from_vec(all))
}

/// Of each client, the answers that stay where the list is cut at a place, and behind them those to its further requests. Either
/// list may be the longer one: the clients behind the end of the other have no answers there.
///
/// Looks at each answer that stays. Else it is linear in those that are cut off and in those that are added, and takes room for
/// a list for each client. Out of memory loses all.
pub(crate) fn joined_answers(
    alloc: Global,
    place: u64,
    answers: Seq<Seq<Answer>>,
    further: Seq<Seq<Answer>>,
) -> Result<Seq<Seq<Answer>>, NoMemory>
    ensures { IfOk result (λ all. all ≡ joined_lists place answers further) }
{
    let mut all = Vec::with_capacity(alloc, answers.len().max(further.len()))?;
    let mut left = further.into_vec().into_iter();
    for earlier in answers.into_vec() {
        let others = left.next().unwrap_or(Seq::new(alloc));
        let count = resume_at(earlier.as_slice(), place);
        all.push_reserved(cut_and_joined(earlier, count, others)?);
    }
    all.extend(left)?;
    Ok(Seq::from_vec(all))
}

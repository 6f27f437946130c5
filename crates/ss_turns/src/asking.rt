//! The commit of what a client asked for, for `execution`: the marks in hand and the client's own go together under the commit
//! log's lock.

ghost use Rattle.ss_commitlog.specs.Meaning.{HasClientBelow};
ghost use Rattle.ss_commitlog.specs.Right.{IsRight};
ghost use Rattle.ss_commitlog.specs.Tokens.{roles_of, Covers};
ghost use Rattle.ss_turns.specs.Commits.{with_client, CommitsAsked, CommitsListed};

use crate::running::commit_listed;
use crate::works::Works;
use core::mem::replace_with;
use ss_commitlog::{Mark, Marks, Placed, Unlisted};
use ss_model::{Emitted, Life, Listed};
use ss_proc::Runner;
use ss_value::Seq;
use std::mem::replace;
use std::sync::Wait;

/// Commits what a client asked for, under the marks of the partitions that it touches and of the client.
///
/// The client's mark is in the list of marks for the commit, and comes out of it again. Takes the log's lock once.
pub(crate) fn commit_asked<I: Life, N: Runner, R: Wait>(
    works: &Works<I, N, R>,
    parts: &mut Marks<I>,
    mark: &mut Mark<I>,
    listed: Listed,
    emitted: Seq<Emitted>,
) -> Result<Placed, Unlisted>
    requires covers { Covers I.catalog I.parts (roles_of (with_client parts.old mark.old)) listed.entry }
    requires client { HasClientBelow I.clients listed.entry }
    requires right { IsRight I.catalog I.parts I.opening (with_client parts.old mark.old) listed emitted }
    ensures { CommitsAsked I.catalog I.parts I.first I.limit parts.old mark.old listed parts.new mark.new result }
{
    let marks = replace(parts, Seq::new(works.alloc));
    let (marks, said) = replace_with(mark, (works, marks, listed, emitted), commit_joined);
    *parts = marks;
    said
}

/// The same with the marks by value, which come back with the answer: the client's is what `replace_with` lends, and the second
/// argument all else.
fn commit_joined<I: Life, N: Runner, R: Wait>(
    mark: Mark<I>,
    asked: (&Works<I, N, R>, Marks<I>, Listed, Seq<Emitted>),
) -> (Mark<I>, (Marks<I>, Result<Placed, Unlisted>))
    requires covers { Covers I.catalog I.parts (roles_of (with_client asked.1 mark)) asked.2.entry }
    requires client { HasClientBelow I.clients asked.2.entry }
    requires right { IsRight I.catalog I.parts I.opening (with_client asked.1 mark) asked.2 asked.3 }
    ensures { CommitsListed I.catalog I.parts I.first I.limit (with_client asked.entry.1 mark) asked.entry.2 (with_client result.1.0 result.0) result.1.1 }
{
    let (works, mut marks, listed, emitted) = asked;
    match marks.push(mark) {
        Ok(()) => {}
        Err((_, mark)) => {
            return (mark, (marks, Err(Unlisted::NoMemory)));
        }
    }
    let said = commit_listed(works, &mut marks, listed, emitted);
    let Some(mark) = marks.pop() else {
        unreachable!()
    };
    (mark, (marks, said))
}

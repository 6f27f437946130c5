//! Whether a procedure is ready.

ghost use Rattle.std.specs.Prelude.{◌≡◌, ◌<◌, length};
ghost use Rattle.ss_model.specs.Accepted.{Accepted};
ghost use Rattle.ss_model.specs.Database.{Database};
ghost use Rattle.ss_model.specs.Settling.{is_ready_now};
ghost use Rattle.ss_sched.specs.Progress.{HasProgress, AreStreams, all_have};

use ss_model::Catalog;
use ss_stream::Streams;

/// Whether each of these streams has had a batch with this number.
fn all_have(streams: &Streams, inputs: &[u16], r: u64) -> bool
    requires { AreStreams streams.now.streams inputs.now }
    ensures { result ≡ all_have streams.now.streams r inputs.now }
{
    for stream in inputs {
        if streams.emitted_count(*stream) <= r {
            return false;
        }
    }
    true
}

/// Whether a procedure is ready: it takes batches, and each of its inputs has had the one that is next for it.
///
/// `cursors` has for each procedure how many batches it has taken. The answer is that of every database with these counts,
/// whose streams have had as many batches as `streams`. Costs a look at each input, of which there are 8 at most.
///
/// Source: the order of batches in S-Store's workflows (Meehan et al., PVLDB 8, 2015, section 2).
pub fn ready(catalog: &Catalog, cursors: &[u64], streams: &Streams, procedure: u16) -> bool
    requires accepted { Accepted catalog.now }
    requires there { procedure < length catalog.now.procedures }
    requires cursors { length cursors.now ≡ length catalog.now.procedures }
    requires streams { length streams.now.streams ≡ length catalog.now.streams }
    ensures { (db : Database) → HasProgress db cursors.now streams.now.streams → result ≡ is_ready_now catalog.now db procedure }
{
    let found = catalog.procedures.at(usize::from(procedure));
    // A call procedure has no inputs, so by its inputs alone it would always be ready.
    if found.kind.is_call() {
        return false;
    }
    let taken = cursors[usize::from(procedure)];
    all_have(streams, found.inputs.as_slice(), taken)
}

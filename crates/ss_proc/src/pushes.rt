//! Pushes: batches that clients push to border streams.

ghost use Rattle.std.specs.Prelude.{◌≡◌, ◌<◌, ◌^◌, [], ◌∷◌, length, IfOk};
ghost use Rattle.ss_model.specs.Batches.{pushed_batch};
ghost use Rattle.ss_shard.specs.Sources.{number_in, SameNumbers, push_outcome};
ghost use Rattle.ss_proc.specs.Entries.{HasSourceEntry};

use crate::runner::Executed;
use ss_model::Emitted;
use ss_shard::{Shard, push_outcome};
use ss_value::{Copies, Name, NoMemory, Rows, Seq};
use std::alloc::Global;

/// The batch of these rows for a stream, as a list of one. The rows are copied.
fn one_batch(alloc: Global, stream: u16, rows: &Rows) -> Result<Seq<Emitted>, NoMemory>
    ensures { IfOk result (λ batches. batches ≡ record { stream = stream; rows = rows.now } ∷ []) }
{
    let rows = rows.duplicate(alloc)?;
    let mut batches = Seq::new(alloc);
    batches.push(Emitted { stream, rows })?;
    Ok(batches)
}

/// Runs a push: compares its number with the next one of its source. An accepted push emits its batch; a duplicate, and one
/// behind a gap, emit none.
///
/// No number changes until the commit. The source of an accepted push has an entry by then, so that the commit, which raises
/// the number, takes no memory. Logarithmic in the stream's sources, and a copy of the rows where the push is accepted.
///
/// Source: batches come in the order of their numbers, each once (Meehan et al., PVLDB 8, 2015, section 2.2).
pub fn run_push(
    alloc: Global,
    shard: &mut Shard,
    stream: u16,
    source: &Name,
    seq: u64,
    rows: &Rows,
) -> Result<Executed, NoMemory>
    requires there { stream < length shard.old.sources }
    requires countable { seq < 2 ^ 63 }
    ensures ok { IfOk result (λ e. e.outcome ≡ push_outcome seq (number_in shard.old.sources stream source.now)) }
    ensures emitted { IfOk result (λ e. e.emitted ≡ pushed_batch stream rows.now e.outcome) }
    ensures sourced { IfOk result (λ e. HasSourceEntry stream source.now seq e.outcome shard.new.sources) }
    ensures same { SameNumbers shard.old.sources shard.new.sources }
    ensures rest { shard.new ≡ record shard.old { sources = shard.new.sources } }
{
    let next = shard.next_number(stream, source);
    if seq != next {
        return Ok(Executed {
            outcome: push_outcome(alloc, seq, next),
            emitted: Seq::new(alloc),
        });
    }
    shard.add_source(alloc, stream, source)?;
    let emitted = one_batch(alloc, stream, rows)?;
    let outcome = push_outcome(alloc, seq, next);
    Ok(Executed { outcome, emitted })
}

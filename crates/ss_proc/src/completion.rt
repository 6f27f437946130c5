//! What follows an execution: a commit or a rollback.

ghost use Rattle.std.specs.Prelude.{◌≡◌, map};
ghost use Rattle.ss_model.specs.Database.{Database};
ghost use Rattle.ss_model.specs.declared.catalog.Catalog.{Catalog};
ghost use Rattle.ss_model.specs.Contents.{Contents};
ghost use Rattle.ss_shard.specs.Bodies.{with_coming};
ghost use Rattle.ss_shard.specs.ShardValue.{ShardValue};
ghost use Rattle.ss_shard.specs.Shards.{IsOf, CanRollBack, Same, IsCommitted};
ghost use Rattle.ss_shard.specs.Parts.{dealing_of};
ghost use Rattle.ss_shard.specs.Windows.{Holds, HoldsDatabase};
ghost use Rattle.ss_proc.specs.Entries.{counts_after, number_raised, numbers_after, HasSourceEntry, IsCountable, EntryHasSource, Commits};

use ss_model::{Entry, Outcome};
use ss_shard::Shard;
use ss_value::Name;

/// Takes an execution back: tables, windows, counts, next numbers and bodies are as they were when it began. Linear in its changes,
/// each of which costs a call of its table or window; takes no memory.
pub fn rollback(shard: &mut Shard)
    requires { (before : ShardValue) × CanRollBack before shard.old }
    ensures back { (before : ShardValue) → CanRollBack before shard.old → Same before shard.new }
    ensures holds { (catalog : Catalog) (before : ShardValue) (db : Database) → CanRollBack before shard.old
        → HoldsDatabase catalog before db → HoldsDatabase catalog shard.new db }
    ensures committed { (catalog : Catalog) (before : ShardValue) → CanRollBack before shard.old → IsOf catalog before → IsCommitted catalog shard.new }
{
    shard.rollback();
}

/// Raises the count of a step's procedure by one. Constant.
fn raise_count(shard: &mut Shard, entry: &Entry)
    requires { IsCountable entry.now }
    ensures { shard.new ≡ record shard.old { cursors = counts_after entry.now shard.old.cursors } }
{
    match entry {
        Entry::Step { procedure, batch } => {
            shard.set_cursor(*procedure, *batch + 1);
        }
        Entry::Call { .. } | Entry::Push { .. } | Entry::Install { .. } => {}
    }
}

/// Raises the next number of a push's source by one, where the push was accepted. Logarithmic in the stream's sources.
fn raise_number(shard: &mut Shard, stream: u16, source: &Name, seq: u64, outcome: &Outcome)
    requires { HasSourceEntry stream source.now seq outcome.now shard.old.sources }
    ensures { shard.new ≡ record shard.old { sources = number_raised stream source.now seq outcome.now shard.old.sources } }
{
    match outcome {
        Outcome::Done(_) => shard.set_number(stream, source, seq + 1),
        Outcome::Aborted(_) | Outcome::Duplicate(_) | Outcome::Gap(_) => {}
    }
}

/// Raises the next number that an entry raises: that of an accepted push's source.
fn raise_number_of_entry(shard: &mut Shard, entry: &Entry, outcome: &Outcome)
    requires { EntryHasSource entry.now outcome.now shard.old.sources }
    ensures { shard.new ≡ record shard.old { sources = numbers_after entry.now outcome.now shard.old.sources } }
{
    match entry {
        Entry::Push {
            stream,
            source,
            seq,
            ..
        } => raise_number(shard, *stream, source, *seq, outcome),
        Entry::Call { .. } | Entry::Step { .. } | Entry::Install { .. } => {}
    }
}

/// Makes an execution final: it can't be taken back any more, and the next one may begin. A step, done or aborted, has then
/// taken its batch, the source of an accepted push has its number raised, and a procedure has the body that was installed.
///
/// Linear in the changes, each of which costs at most a call of its table or window; for a push logarithmic in its stream's
/// sources. Takes no memory.
///
/// It takes the entry and its outcome, and `rollback` the shard alone, instead of both the catalogue too: neither reads
/// it, and a parameter that nothing reads would have no clause.
pub fn commit(shard: &mut Shard, entry: &Entry, outcome: &Outcome)
    requires back { (before : ShardValue) × CanRollBack before shard.old }
    requires countable { IsCountable entry.now }
    requires sourced { EntryHasSource entry.now outcome.now shard.old.sources }
    ensures keeps { (catalog : Catalog) → IsOf catalog shard.old → Commits catalog entry.now outcome.now shard.old shard.new }
    ensures holds { (catalog : Catalog) (s : Contents) → IsOf catalog shard.old → Holds catalog shard.old s → Holds catalog shard.new s }
    ensures counts { shard.new.cursors ≡ counts_after entry.now shard.old.cursors }
    ensures numbers { shard.new.sources ≡ numbers_after entry.now outcome.now shard.old.sources }
    ensures bodies { shard.new.bodies ≡ with_coming shard.old.coming shard.old.bodies }
    ensures unchanged { shard.new.number ≡ shard.old.number }
    ensures dealt { map dealing_of shard.new.tables ≡ map dealing_of shard.old.tables }
    ensures committed { (catalog : Catalog) → IsOf catalog shard.old → IsCommitted catalog shard.new }
{
    // Counts and numbers last: a shard whose counts have moved can't be rolled back, and `Shard::commit` asks for one that can.
    shard.commit();
    raise_count(shard, entry);
    raise_number_of_entry(shard, entry, outcome);
}

//! Runs of `sstore` on a source and a sink in memory. Every expected answer is decided by hand.

mod edges;
mod faults;
mod full;
mod gates;
mod older;
mod restarts;
mod scripts;
mod stores;
mod weak;

use ss_disk::MemoryDisk;
use ss_engine::{Gate, NoGate};
use ss_lines::{MemorySink, MemorySource, Sink, Source};
use ss_top::{MOST_ENTRIES, Status, sstore, sstore_limited};
use ss_value::{NoMemory, Seq};
use std::alloc::{AllocError, Global};
use std::sync::Wait;
use std::thread::Threads;

/// Accounts by number, with `put`, `all`, and `twice`, which always aborts.
const ACCOUNTS: &str =
    r#"{"tables":[{"name":"acct","columns":[["id","int"],["bal","int"]],"key":["id"],"part":0}],"procedures":[{"name":"put","kind":"call","args":[["id","int"],["bal","int"]],"touch":{"part":0},"body":[{"insert":"acct","values":[{"arg":"id"},{"arg":"bal"}]}]},{"name":"all","kind":"call","args":[],"touch":{"part":0},"body":[{"return_all":"acct"}]},{"name":"twice","kind":"call","args":[["id","int"]],"touch":{"part":0},"body":[{"insert":"acct","values":[{"arg":"id"},0]},{"insert":"acct","values":[{"arg":"id"},0]}]}]}"#;

/// A workflow that parts and meets again, `a`, then `p` and `q`, then `j`, in which `q` has a partition of its own where there
/// are two; and `peek`, which returns what met.
const DIAMOND: &str =
    r#"{"tables":[{"name":"joined","columns":[["x","int"],["side","int"]],"key":["x"],"part":0}],"streams":[{"name":"s","columns":[["x","int"]]},{"name":"l","columns":[["x","int"]]},{"name":"r","columns":[["x","int"]]},{"name":"pl","columns":[["x","int"]]},{"name":"qr","columns":[["x","int"]]}],"procedures":[{"name":"a","kind":"border","inputs":["s"],"touch":{"part":0},"body":[{"emit":"l","sql":"SELECT x FROM s"},{"emit":"r","sql":"SELECT x FROM s"}]},{"name":"p","kind":"interior","inputs":["l"],"touch":{"part":0},"body":[{"abort_if":"(SELECT COUNT(*) FROM l WHERE x = 7) > 0","code":3},{"emit":"pl","sql":"SELECT x + 10 FROM l"}]},{"name":"q","kind":"interior","inputs":["r"],"touch":{"part":1},"body":[{"emit":"qr","sql":"SELECT x + 20 FROM r"}]},{"name":"j","kind":"interior","inputs":["pl","qr"],"touch":{"part":0},"body":[{"sql":"INSERT INTO joined SELECT x, 1 FROM pl"},{"sql":"INSERT INTO joined SELECT x, 2 FROM qr"}]},{"name":"peek","kind":"call","touch":{"part":0},"body":[{"return_all":"joined"}]}]}"#;

/// How a run ended, and the sink that it wrote to.
struct Ended {
    status: Status,
    sink: MemorySink,
}

// By hand, so that letting it go is one call.
impl Drop for Ended {
    fn drop(self) {
        let Ended { status: _, sink: _ } = self;
    }
}

impl Ended {
    /// What it wrote.
    fn written(&self) -> &[u8] {
        self.sink.as_bytes()
    }

    /// What it wrote, as text.
    fn text(&self) -> &str {
        std::str::from_utf8(self.written()).unwrap_or("no UTF-8")
    }

    /// Whether it ended so, and wrote this.
    fn is(&self, status: Status, written: &str) -> bool {
        self.status == status && self.written() == written.as_bytes()
    }

    /// Whether it ended so, and wrote this behind other lines.
    fn ends(&self, status: Status, last: &str) -> bool {
        self.status == status && self.written().ends_with(last.as_bytes())
    }
}

/// Three calls on accounts, of which the third finds the row of the first.
const PUTS: &str =
    "{\"call\":\"put\",\"args\":[1,5]}\n{\"call\":\"all\",\"args\":[]}\n{\"call\":\"put\",\"args\":[1,9]}\n";

/// An empty disk that never fails.
fn empty_disk(alloc: Global) -> MemoryDisk {
    MemoryDisk::new(alloc, Seq::new(alloc))
}

/// The words of a command line.
fn words_of(alloc: Global, words: &[&str]) -> Result<Vec<String>, AllocError> {
    let mut owned = Vec::new(alloc);
    for word in words {
        owned.push(String::from_str(alloc, word)?)?;
    }
    Ok(owned)
}

/// How a run on a disk ended, and the disk behind it.
struct Left {
    ended: Ended,
    disk: MemoryDisk,
}

// By hand, so that letting it go is one call.
impl Drop for Left {
    fn drop(self) {
        let Left { ended: _, disk: _ } = self;
    }
}

impl Left {
    /// Both.
    fn into_parts(self) -> (Ended, MemoryDisk) {
        let Left { ended, disk } = self;
        (ended, disk)
    }

    /// The disk.
    fn into_disk(self) -> MemoryDisk {
        self.into_parts().1
    }
}

/// The words of a command, the source that it reads and the sink that it writes to.
struct Streams {
    words: Vec<String>,
    source: MemorySource,
    sink: MemorySink,
}

// By hand, so that letting it go is one call.
impl Drop for Streams {
    fn drop(self) {
        let Streams {
            words: _,
            source: _,
            sink: _,
        } = self;
    }
}

impl Streams {
    /// A command line on an input, and a sink that has room for this many bytes.
    fn new(
        alloc: Global,
        words: &[&str],
        input: Vec<u8>,
        room: usize,
    ) -> Result<Streams, NoMemory> {
        let words = words_of(alloc, words)?;
        let sink = MemorySink::new(alloc, room)?;
        let source = MemorySource::new(Seq::from_vec(input));
        Ok(Streams {
            words,
            source,
            sink,
        })
    }

    /// Runs the command on a disk, with a list of at most `limit` entries.
    fn run_on<R: Threads + Wait + Sync>(
        self,
        rt: &R,
        alloc: Global,
        disk: MemoryDisk,
        limit: u16,
    ) -> Left {
        let Streams {
            words,
            mut source,
            mut sink,
        } = self;
        let limit = MOST_ENTRIES.min(u64::from(limit));
        let (status, disk) = sstore_limited(
            rt,
            alloc,
            &words,
            &mut source,
            &mut sink,
            disk,
            NoGate,
            limit,
        );
        Left {
            ended: Ended { status, sink },
            disk,
        }
    }
}

/// Just this number.
fn one(alloc: Global, number: u64) -> Result<Seq<u64>, NoMemory> {
    let mut numbers = Seq::new(alloc);
    match numbers.push(number) {
        Ok(()) => Ok(numbers),
        Err(_) => Err(NoMemory),
    }
}

/// Runs a command line between a source and a sink, with a gate, on an empty disk.
fn run_between<S: Source, K: Sink, G: Gate + Drop + Sync, R: Threads + Wait + Sync>(
    rt: &R,
    alloc: Global,
    words: &[&str],
    source: &mut S,
    sink: &mut K,
    gate: G,
) -> Result<Status, NoMemory> {
    let words = words_of(alloc, words)?;
    let (status, _) = sstore(rt, alloc, &words, source, sink, empty_disk(alloc), gate);
    Ok(status)
}

/// Runs a command line on a source, with a gate, and with a sink that has room for this many bytes.
fn run_from<S: Source, G: Gate + Drop + Sync, R: Threads + Wait + Sync>(
    rt: &R,
    alloc: Global,
    words: &[&str],
    source: &mut S,
    room: usize,
    gate: G,
) -> Result<Ended, NoMemory> {
    let mut sink = MemorySink::new(alloc, room)?;
    let status = run_between(rt, alloc, words, source, &mut sink, gate)?;
    Ok(Ended { status, sink })
}

/// A catalogue with lines of requests behind it.
fn with_requests(alloc: Global, catalog: &str, requests: &str) -> Result<Vec<u8>, AllocError> {
    let input = format!(in alloc; "{catalog}\n{requests}")?;
    Vec::from_slice(alloc, input.as_bytes())
}

//! The scripts of the tables of faults and crashes, and what may be left of one that was cut short.

use super::{DIAMOND, Ended, Left, Streams, with_requests};
use ss_disk::MemoryDisk;
use ss_top::Status;
use ss_value::NoMemory;
use std::alloc::Global;
use std::sync::Wait;
use std::thread::Threads;

/// How many bytes a sink has room for.
pub(super) const ROOM: usize = 4096;

/// A command line, and an input.
#[derive(Clone, Copy)]
pub(super) struct Script {
    pub(super) words: [&'static str; 3],
    pub(super) catalog: &'static str,
    pub(super) requests: &'static str,
    /// How the report of a run without faults ends.
    pub(super) last: &'static str,
    /// Its tables without rows, as a report ends that says so.
    pub(super) empty: &'static str,
}

impl Script {
    /// The word that tells how its store is had again.
    fn recovery(&self) -> &'static str {
        if self.words[2] == "--recovery=weak" {
            "--recovery=weak"
        } else {
            "--recovery=strong"
        }
    }

    /// The same without its requests.
    pub(super) fn without_requests(&self) -> Script {
        Script {
            words: self.words,
            catalog: self.catalog,
            requests: "",
            last: self.last,
            empty: self.empty,
        }
    }
}

/// Two batches, one of them pushed twice, and one too early.
pub(super) const PUSHES: &str =
    "{\"push\":\"s\",\"source\":\"a\",\"seq\":0,\"rows\":[[1]]}\n{\"push\":\"s\",\"source\":\"a\",\"seq\":0,\"rows\":[[1]]}\n{\"push\":\"s\",\"source\":\"a\",\"seq\":2,\"rows\":[[2]]}\n{\"push\":\"s\",\"source\":\"a\",\"seq\":1,\"rows\":[[2]]}\n";

/// The same, but that `j` has another body for the second batch, with which it makes the rows that it would make of the first one's
/// numbers.
const INSTALLS: &str =
    "{\"push\":\"s\",\"source\":\"a\",\"seq\":0,\"rows\":[[1]]}\n{\"push\":\"s\",\"source\":\"a\",\"seq\":0,\"rows\":[[1]]}\n{\"install\":\"j\",\"body\":[{\"sql\":\"INSERT INTO joined SELECT x - 100, 1 FROM pl\"},{\"sql\":\"INSERT INTO joined SELECT x - 100, 2 FROM qr\"}]}\n{\"push\":\"s\",\"source\":\"a\",\"seq\":1,\"rows\":[[102]]}\n";

/// A batch, and calls of `peek` by the body that makes the rows of another one, and by one that aborts.
pub(super) const CALLS: &str =
    "{\"push\":\"s\",\"source\":\"a\",\"seq\":0,\"rows\":[[1]]}\n{\"push\":\"s\",\"source\":\"a\",\"seq\":0,\"rows\":[[1]]}\n{\"install\":\"peek\",\"body\":[{\"insert\":\"joined\",\"values\":[12,1]},{\"insert\":\"joined\",\"values\":[22,2]}]}\n{\"call\":\"peek\",\"args\":[]}\n{\"install\":\"peek\",\"body\":[{\"abort_if\":\"(SELECT COUNT(*) FROM joined) > 1\",\"code\":4}]}\n{\"call\":\"peek\",\"args\":[]}\n{\"install\":\"peek\",\"body\":[{\"return_all\":\"joined\"}]}\n{\"push\":\"s\",\"source\":\"a\",\"seq\":0,\"rows\":[[1]]}\n";

/// A workflow whose steps have four partitions, and a call of its argument's.
const SPREAD: &str =
    r#"{"tables":[{"name":"acct","columns":[["id","int"],["side","int"]],"key":["id","side"],"by":"id"},{"name":"joined","columns":[["x","int"],["side","int"]],"key":["x"],"part":7}],"streams":[{"name":"s","columns":[["x","int"]]},{"name":"l","columns":[["x","int"]]},{"name":"r","columns":[["x","int"]]},{"name":"pl","columns":[["x","int"]]},{"name":"qr","columns":[["x","int"]]}],"procedures":[{"name":"put","kind":"call","args":[["id","int"]],"touch":{"arg":"id"},"body":[{"insert":"acct","values":[{"arg":"id"},1]},{"insert":"acct","values":[{"arg":"id"},2]}]},{"name":"a","kind":"border","inputs":["s"],"touch":{"part":0},"body":[{"emit":"l","sql":"SELECT x FROM s"},{"emit":"r","sql":"SELECT x FROM s"}]},{"name":"p","kind":"interior","inputs":["l"],"touch":{"part":3},"body":[{"emit":"pl","sql":"SELECT x + 10 FROM l"}]},{"name":"q","kind":"interior","inputs":["r"],"touch":{"part":5},"body":[{"emit":"qr","sql":"SELECT x + 20 FROM r"}]},{"name":"j","kind":"interior","inputs":["pl","qr"],"touch":{"part":7},"body":[{"sql":"INSERT INTO joined SELECT x, 1 FROM pl"},{"sql":"INSERT INTO joined SELECT x, 2 FROM qr"}]}]}"#;

/// The workflow that parts and meets again, in which all but `j` are one nest: its streams `l` and `r` are inside of it.
pub(super) const NESTED: &str =
    r#"{"tables":[{"name":"joined","columns":[["x","int"],["side","int"]],"key":["x"],"part":0}],"streams":[{"name":"s","columns":[["x","int"]]},{"name":"l","columns":[["x","int"]]},{"name":"r","columns":[["x","int"]]},{"name":"pl","columns":[["x","int"]]},{"name":"qr","columns":[["x","int"]]}],"procedures":[{"name":"a","kind":"border","inputs":["s"],"touch":{"part":0},"body":[{"emit":"l","sql":"SELECT x FROM s"},{"emit":"r","sql":"SELECT x FROM s"}]},{"name":"p","kind":"interior","inputs":["l"],"touch":{"part":0},"body":[{"abort_if":"(SELECT COUNT(*) FROM l WHERE x = 7) > 0","code":3},{"emit":"pl","sql":"SELECT x + 10 FROM l"}]},{"name":"q","kind":"interior","inputs":["r"],"touch":{"part":0},"body":[{"emit":"qr","sql":"SELECT x + 20 FROM r"}]},{"name":"j","kind":"interior","inputs":["pl","qr"],"touch":{"part":0},"body":[{"sql":"INSERT INTO joined SELECT x, 1 FROM pl"},{"sql":"INSERT INTO joined SELECT x, 2 FROM qr"}]},{"name":"peek","kind":"call","touch":{"part":0},"body":[{"return_all":"joined"}]}],"nests":[{"name":"first","procedures":["a","p","q"]}]}"#;

/// A push and a call of each of eight clients.
const OF_EIGHT: &str =
    "{\"push\":\"s\",\"source\":\"a\",\"seq\":0,\"rows\":[[1]]}\n{\"client\":1,\"push\":\"s\",\"source\":\"b\",\"seq\":0,\"rows\":[[3]]}\n{\"client\":2,\"push\":\"s\",\"source\":\"c\",\"seq\":0,\"rows\":[[4]]}\n{\"client\":3,\"push\":\"s\",\"source\":\"d\",\"seq\":0,\"rows\":[[5]]}\n{\"client\":4,\"push\":\"s\",\"source\":\"e\",\"seq\":0,\"rows\":[[6]]}\n{\"client\":5,\"push\":\"s\",\"source\":\"f\",\"seq\":0,\"rows\":[[7]]}\n{\"client\":6,\"push\":\"s\",\"source\":\"g\",\"seq\":0,\"rows\":[[8]]}\n{\"client\":7,\"push\":\"s\",\"source\":\"h\",\"seq\":0,\"rows\":[[9]]}\n{\"call\":\"put\",\"args\":[0]}\n{\"client\":1,\"call\":\"put\",\"args\":[1]}\n{\"client\":2,\"call\":\"put\",\"args\":[2]}\n{\"client\":3,\"call\":\"put\",\"args\":[3]}\n{\"client\":4,\"call\":\"put\",\"args\":[4]}\n{\"client\":5,\"call\":\"put\",\"args\":[5]}\n{\"client\":6,\"call\":\"put\",\"args\":[6]}\n{\"client\":7,\"call\":\"put\",\"args\":[7]}\n";

/// One client, the same with a checkpoint due behind each entry, and eight clients on as many partitions; then the three again with a
/// store of which what clients ask for alone is logged. Then a body is installed on stores of each mode, without checkpoints and with
/// them; and both with a nest.
pub(super) const SCRIPTS: [Script; 14] = [
    Script {
        words: ["run", "--partitions=1", "--restarts=0"],
        catalog: DIAMOND,
        requests: PUSHES,
        last: "[\"done\",12]\n",
        empty: "[\"table\",\"joined\",0]\n[\"done\",0]\n",
    },
    Script {
        words: ["run", "--checkpoint=1", "--recovery=strong"],
        catalog: DIAMOND,
        requests: PUSHES,
        last: "[\"done\",12]\n",
        empty: "[\"table\",\"joined\",0]\n[\"done\",0]\n",
    },
    Script {
        words: ["run", "--partitions=8", "--recovery=strong"],
        catalog: SPREAD,
        requests: OF_EIGHT,
        last: "[\"done\",48]\n",
        empty: "[\"table\",\"acct\",0]\n[\"table\",\"joined\",0]\n[\"done\",0]\n",
    },
    Script {
        words: ["run", "--partitions=1", "--recovery=weak"],
        catalog: DIAMOND,
        requests: PUSHES,
        last: "[\"done\",12]\n",
        empty: "[\"table\",\"joined\",0]\n[\"done\",0]\n",
    },
    Script {
        words: ["run", "--checkpoint=1", "--recovery=weak"],
        catalog: DIAMOND,
        requests: PUSHES,
        last: "[\"done\",12]\n",
        empty: "[\"table\",\"joined\",0]\n[\"done\",0]\n",
    },
    Script {
        words: ["run", "--partitions=8", "--recovery=weak"],
        catalog: SPREAD,
        requests: OF_EIGHT,
        last: "[\"done\",48]\n",
        empty: "[\"table\",\"acct\",0]\n[\"table\",\"joined\",0]\n[\"done\",0]\n",
    },
    Script {
        words: ["run", "--partitions=1", "--recovery=strong"],
        catalog: DIAMOND,
        requests: INSTALLS,
        last: "[\"done\",12]\n",
        empty: "[\"table\",\"joined\",0]\n[\"done\",0]\n",
    },
    Script {
        words: ["run", "--checkpoint=1", "--recovery=strong"],
        catalog: DIAMOND,
        requests: INSTALLS,
        last: "[\"done\",12]\n",
        empty: "[\"table\",\"joined\",0]\n[\"done\",0]\n",
    },
    Script {
        words: ["run", "--partitions=1", "--recovery=weak"],
        catalog: DIAMOND,
        requests: INSTALLS,
        last: "[\"done\",12]\n",
        empty: "[\"table\",\"joined\",0]\n[\"done\",0]\n",
    },
    Script {
        words: ["run", "--checkpoint=1", "--recovery=weak"],
        catalog: DIAMOND,
        requests: INSTALLS,
        last: "[\"done\",12]\n",
        empty: "[\"table\",\"joined\",0]\n[\"done\",0]\n",
    },
    Script {
        words: ["run", "--partitions=1", "--recovery=strong"],
        catalog: NESTED,
        requests: PUSHES,
        last: "[\"done\",8]\n",
        empty: "[\"table\",\"joined\",0]\n[\"done\",0]\n",
    },
    Script {
        words: ["run", "--checkpoint=1", "--recovery=strong"],
        catalog: NESTED,
        requests: PUSHES,
        last: "[\"done\",8]\n",
        empty: "[\"table\",\"joined\",0]\n[\"done\",0]\n",
    },
    Script {
        words: ["run", "--partitions=1", "--recovery=weak"],
        catalog: NESTED,
        requests: INSTALLS,
        last: "[\"done\",8]\n",
        empty: "[\"table\",\"joined\",0]\n[\"done\",0]\n",
    },
    Script {
        words: ["run", "--checkpoint=1", "--recovery=weak"],
        catalog: NESTED,
        requests: INSTALLS,
        last: "[\"done\",8]\n",
        empty: "[\"table\",\"joined\",0]\n[\"done\",0]\n",
    },
];

/// The two rows that a request leaves once its steps have run, by how its line of the list ends.
const ROWS: [(&str, &str, &str); 17] = [
    (
        ",0,0,[\"done\",[]]]",
        "[\"row\",\"joined\",[11,1]]",
        "[\"row\",\"joined\",[21,2]]",
    ),
    (
        ",0,3,[\"done\",[]]]",
        "[\"row\",\"joined\",[12,1]]",
        "[\"row\",\"joined\",[22,2]]",
    ),
    (
        ",1,0,[\"done\",[]]]",
        "[\"row\",\"joined\",[13,1]]",
        "[\"row\",\"joined\",[23,2]]",
    ),
    (
        ",2,0,[\"done\",[]]]",
        "[\"row\",\"joined\",[14,1]]",
        "[\"row\",\"joined\",[24,2]]",
    ),
    (
        ",3,0,[\"done\",[]]]",
        "[\"row\",\"joined\",[15,1]]",
        "[\"row\",\"joined\",[25,2]]",
    ),
    (
        ",4,0,[\"done\",[]]]",
        "[\"row\",\"joined\",[16,1]]",
        "[\"row\",\"joined\",[26,2]]",
    ),
    (
        ",5,0,[\"done\",[]]]",
        "[\"row\",\"joined\",[17,1]]",
        "[\"row\",\"joined\",[27,2]]",
    ),
    (
        ",6,0,[\"done\",[]]]",
        "[\"row\",\"joined\",[18,1]]",
        "[\"row\",\"joined\",[28,2]]",
    ),
    (
        ",7,0,[\"done\",[]]]",
        "[\"row\",\"joined\",[19,1]]",
        "[\"row\",\"joined\",[29,2]]",
    ),
    (
        ",0,1,[\"done\",[]]]",
        "[\"row\",\"acct\",[0,1]]",
        "[\"row\",\"acct\",[0,2]]",
    ),
    (
        ",1,1,[\"done\",[]]]",
        "[\"row\",\"acct\",[1,1]]",
        "[\"row\",\"acct\",[1,2]]",
    ),
    (
        ",2,1,[\"done\",[]]]",
        "[\"row\",\"acct\",[2,1]]",
        "[\"row\",\"acct\",[2,2]]",
    ),
    (
        ",3,1,[\"done\",[]]]",
        "[\"row\",\"acct\",[3,1]]",
        "[\"row\",\"acct\",[3,2]]",
    ),
    (
        ",4,1,[\"done\",[]]]",
        "[\"row\",\"acct\",[4,1]]",
        "[\"row\",\"acct\",[4,2]]",
    ),
    (
        ",5,1,[\"done\",[]]]",
        "[\"row\",\"acct\",[5,1]]",
        "[\"row\",\"acct\",[5,2]]",
    ),
    (
        ",6,1,[\"done\",[]]]",
        "[\"row\",\"acct\",[6,1]]",
        "[\"row\",\"acct\",[6,2]]",
    ),
    (
        ",7,1,[\"done\",[]]]",
        "[\"row\",\"acct\",[7,1]]",
        "[\"row\",\"acct\",[7,2]]",
    ),
];

/// Runs a script on a disk.
pub(super) fn run_script<R: Threads + Wait + Sync>(
    rt: &R,
    alloc: Global,
    script: &Script,
    disk: MemoryDisk,
) -> Result<Left, NoMemory> {
    let input = with_requests(alloc, script.catalog, script.requests)?;
    let streams = Streams::new(alloc, &script.words, input, ROOM)?;
    Ok(streams.run_on(rt, alloc, disk, u16::MAX))
}

/// Recovers a disk with these words, and runs nothing on it but what was pending.
fn recover_with<R: Threads + Wait + Sync>(
    rt: &R,
    alloc: Global,
    words: &[&str],
    disk: MemoryDisk,
) -> Result<Left, NoMemory> {
    let streams = Streams::new(alloc, words, Vec::new(alloc), ROOM)?;
    Ok(streams.run_on(rt, alloc, disk, u16::MAX))
}

/// Recovers the disk of a run whose store has all entries.
pub(super) fn recover<R: Threads + Wait + Sync>(
    rt: &R,
    alloc: Global,
    disk: MemoryDisk,
) -> Result<Left, NoMemory> {
    recover_with(rt, alloc, &["recover"], disk)
}

/// Recovers the disk of a run of a script by the mode of that.
pub(super) fn recover_as<R: Threads + Wait + Sync>(
    rt: &R,
    alloc: Global,
    script: &Script,
    disk: MemoryDisk,
) -> Result<Left, NoMemory> {
    recover_with(rt, alloc, &["recover", script.recovery()], disk)
}

/// Which of the two rows are there that the request of a line of a list leaves, where the line is of one that is done.
fn rows_of(line: &str, report: &str) -> Option<(bool, bool)> {
    if line.starts_with("[\"reply\",") {
        return None;
    }
    for (end, first, second) in &ROWS {
        if line.ends_with(*end) {
            return Some((report.contains(*first), report.contains(*second)));
        }
    }
    None
}

/// How many lines of a report begin so.
pub(super) fn line_count(report: &str, front: &str) -> usize {
    let mut count = 0usize;
    for line in report.split('\n') {
        if line.starts_with(front) {
            count = count.saturating_add(1);
        }
    }
    count
}

/// Whether a report has the rows of the first requests of a list, and no others.
fn has_first_rows(list: &str, report: &str) -> bool {
    let (mut count, mut behind) = (0usize, false);
    for line in list.split('\n') {
        match rows_of(line, report) {
            Some((true, true)) if !behind => count = count.saturating_add(2),
            Some((false, false)) => behind = true,
            Some(_) => return false,
            None => {}
        }
    }
    line_count(report, "[\"row\",") == count
}

/// Whether a recovery did all that was pending, and found a prefix of the list of this report; of an empty disk it tells that nothing
/// was done.
pub(super) fn is_prefix(list: &str, recovered: &Ended) -> bool {
    recovered.status == Status::Done && has_first_rows(list, recovered.text())
}

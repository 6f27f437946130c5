//! One input through each source and sink, and what a caller can prove of it.
//!
//! How lines part and where they are too long is said in the cases of `ss_cases`, which read from memory.

ghost use Rattle.std.specs.Prelude.{◌≡◌, IfOk};
ghost use Rattle.ss_lines.specs.Lines.{lines_of};

use ss_lines::{
    Line, LineError, MemorySource, ReadSource, WriteFault, WriteSink, read_lines, write_all,
};
use ss_value::Seq;
use std::alloc::Global;
use std::test::Fail;

const TEXT: &[u8] = b"{\"a\":1}\n\n \t\r\n[2]\r\nnone";

fn lines_in_memory(alloc: Global, bytes: Seq<u8>) -> Result<Seq<Line>, LineError>
    ensures { IfOk result (λ lines. lines ≡ lines_of bytes) }
{
    let mut source = MemorySource::new(bytes);
    read_lines(alloc, &mut source)
}

fn lines_by_reader(alloc: Global, bytes: &[u8]) -> Result<Seq<Line>, LineError>
    ensures { IfOk result (λ lines. lines ≡ lines_of bytes.now) }
{
    let mut source = ReadSource::new(bytes);
    read_lines(alloc, &mut source)
}

fn written_by_writer(alloc: Global, bytes: &[u8]) -> Result<Vec<u8>, WriteFault>
    ensures { IfOk result (λ v. v.items ≡ bytes.now) }
{
    let mut sink = WriteSink::new(Vec::new(alloc));
    write_all(&mut sink, bytes)?;
    Ok(sink.into_inner())
}

#[test]
fn sources_have_lines(rt: HostRuntime) -> Result<(), Fail> {
    let bytes = Seq::from_vec(Vec::from_slice(rt.alloc(), TEXT)?);
    let lines = lines_in_memory(rt.alloc(), bytes)?;
    assert_eq!(rt; lines.len(), 3);
    Ok(())
}

#[test]
fn readers_have_lines(rt: HostRuntime) -> Result<(), Fail> {
    let lines = lines_by_reader(rt.alloc(), TEXT)?;
    assert_eq!(rt; lines.len(), 3);
    Ok(())
}

#[test]
fn sinks_have_what_is_written(rt: HostRuntime) -> Result<(), Fail> {
    let bytes = written_by_writer(rt.alloc(), TEXT)?;
    assert_eq!(rt; bytes.as_slice(), TEXT);
    Ok(())
}

//! Entries from bytes.

ghost use Rattle.std.specs.Prelude.{◌≡◌, drop, IfOk};
ghost use Rattle.ss_record.specs.Found.{IsRecordInFront, FindsRecord};
ghost use Rattle.ss_record.specs.Records.{client_at, index_at, order_at, seq_at, count_at, fields_at, step_at, call_at, name_bytes_at, name_at, rows_at, batch_at, push_at, body_bytes_at, body_at, install_at, record_at, Reads};

use crate::read::{byte_of, row_in, u16_of, u32_of, u64_of};
use ss_model::Entry;
use ss_value::{Name, NoMemory, Row, Rows, Seq, ValueError, name_of};
use std::alloc::Global;

/// Why a record is refused.
#[derive(Clone, Copy, Debug, PartialEq, Eq, Drop)]
pub enum RecordError {
    /// Want of memory.
    NoMemory,
    /// The bytes end inside the record.
    Truncated,
    /// The record is of no kind that there is.
    BadKind,
    /// A row, a name or a text that isn't one, or a number out of its bounds.
    BadField,
}

impl From<ValueError> for RecordError {
    ghost use Rattle.std.specs.Prelude.{◌≡◌};
    ghost use Rattle.ss_record.specs.Records.{record_error};

    ghost from_gives = { λ refused e. e ≡ record_error refused };

    fn from(refused: ValueError) -> RecordError {
        match refused {
            ValueError::NoMemory => RecordError::NoMemory,
            ValueError::Truncated => RecordError::Truncated,
            _ => RecordError::BadField,
        }
    }
}

#[tactic(auto, unfolding(crate::specs::Records::client_at))]
fn client_of(bytes: &[u8]) -> Result<(u8, &[u8]), RecordError>
    ensures { Reads (λ x. (x.0, x.1.now)) result (client_at bytes.now) }
{
    match byte_of(bytes) {
        Ok((client, rest)) => {
            if client >= 8 {
                return Err(RecordError::BadField);
            }
            Ok((client, rest))
        }
        Err(refused) => Err(RecordError::from(refused)),
    }
}

#[tactic(auto, unfolding(crate::specs::Records::index_at))]
fn index_of(bytes: &[u8]) -> Result<(u64, &[u8]), RecordError>
    ensures { Reads (λ x. (x.0, x.1.now)) result (index_at bytes.now) }
{
    match u64_of(bytes) {
        Ok(index) => Ok(index),
        Err(refused) => Err(RecordError::from(refused)),
    }
}

#[tactic(auto, unfolding(crate::specs::Records::order_at))]
fn order_of(bytes: &[u8]) -> Result<(u16, &[u8]), RecordError>
    ensures { Reads (λ x. (x.0, x.1.now)) result (order_at bytes.now) }
{
    match u16_of(bytes) {
        Ok(order) => Ok(order),
        Err(refused) => Err(RecordError::from(refused)),
    }
}

#[tactic(auto, unfolding(crate::specs::Records::fields_at))]
fn fields_of(alloc: Global, bytes: &[u8]) -> Result<(Row, &[u8]), RecordError>
    ensures { Reads (λ x. (x.0, x.1.now)) result (fields_at bytes.now) }
{
    match row_in(alloc, bytes) {
        Ok(row) => Ok(row),
        Err(refused) => Err(RecordError::from(refused)),
    }
}

#[tactic(auto, unfolding(crate::specs::Records::step_at))]
fn step_of(bytes: &[u8]) -> Result<(Entry, &[u8]), RecordError>
    ensures { Reads (λ x. (x.0, x.1.now)) result (step_at bytes.now) }
{
    let (procedure, rest) = order_of(bytes)?;
    let (batch, rest) = index_of(rest)?;
    Ok((Entry::Step { procedure, batch }, rest))
}

#[tactic(auto, unfolding(crate::specs::Records::call_at))]
fn call_of(alloc: Global, bytes: &[u8]) -> Result<(Entry, &[u8]), RecordError>
    ensures { Reads (λ x. (x.0, x.1.now)) result (call_at bytes.now) }
{
    let (client, rest) = client_of(bytes)?;
    let (index, rest) = index_of(rest)?;
    let (procedure, rest) = order_of(rest)?;
    let (args, rest) = fields_of(alloc, rest)?;
    Ok((
        Entry::Call {
            client,
            index,
            procedure,
            args,
        },
        rest,
    ))
}

#[tactic(auto, unfolding(crate::specs::Records::seq_at))]
fn seq_of(bytes: &[u8]) -> Result<(u64, &[u8]), RecordError>
    ensures { Reads (λ x. (x.0, x.1.now)) result (seq_at bytes.now) }
{
    match u64_of(bytes) {
        Ok((seq, rest)) => {
            if seq >= 1 << 63 {
                return Err(RecordError::BadField);
            }
            Ok((seq, rest))
        }
        Err(refused) => Err(RecordError::from(refused)),
    }
}

#[tactic(auto, unfolding(crate::specs::Records::count_at))]
fn count_of(bytes: &[u8]) -> Result<(u16, &[u8]), RecordError>
    ensures { Reads (λ x. (x.0, x.1.now)) result (count_at bytes.now) }
{
    match u16_of(bytes) {
        Ok((count, rest)) => {
            if count > 1024 {
                return Err(RecordError::BadField);
            }
            Ok((count, rest))
        }
        Err(refused) => Err(RecordError::from(refused)),
    }
}

#[tactic(auto, unfolding(crate::specs::Records::name_bytes_at))]
fn name_of_length(alloc: Global, bytes: &[u8], count: usize) -> Result<(Name, &[u8]), RecordError>
    ensures { Reads (λ x. (x.0, x.1.now)) result (name_bytes_at count bytes.now) }
{
    if bytes.len() < count {
        return Err(RecordError::Truncated);
    }
    let (front, rest) = bytes.split_at(count);
    match name_of(alloc, front) {
        Ok(name) => Ok((name, rest)),
        Err(ValueError::NoMemory) => Err(RecordError::NoMemory),
        Err(_) => Err(RecordError::BadField),
    }
}

/// The name in front, behind its length of one byte, and the bytes behind it: `Truncated` where these end too early, and
/// `BadField` at a length that no name has, which is told before the bytes behind it, and at a name that isn't one.
#[tactic(auto, unfolding(crate::specs::Records::name_at))]
pub fn name_in(alloc: Global, bytes: &[u8]) -> Result<(Name, &[u8]), RecordError>
    ensures { Reads (λ x. (x.0, x.1.now)) result (name_at bytes.now) }
{
    match byte_of(bytes) {
        Ok((count, rest)) => {
            if count == 0 || count > 32 {
                return Err(RecordError::BadField);
            }
            name_of_length(alloc, rest, usize::from(count))
        }
        Err(refused) => Err(RecordError::from(refused)),
    }
}

fn rows_in(alloc: Global, bytes: &[u8], count: u16) -> Result<(Rows, &[u8]), RecordError>
    ensures { Reads (λ x. (x.0, x.1.now)) result (rows_at count bytes.now) }
{
    let mut rows = Seq::new(alloc);
    let mut rest = bytes;
    for _ in 0..count {
        let (row, behind) = fields_of(alloc, rest)?;
        if rows.push(row).is_err() {
            return Err(RecordError::NoMemory);
        }
        rest = behind;
    }
    Ok((rows, rest))
}

#[tactic(auto, unfolding(crate::specs::Records::batch_at))]
fn batch_of(alloc: Global, bytes: &[u8]) -> Result<(Rows, &[u8]), RecordError>
    ensures { Reads (λ x. (x.0, x.1.now)) result (batch_at bytes.now) }
{
    let (count, rest) = count_of(bytes)?;
    rows_in(alloc, rest, count)
}

#[tactic(auto, unfolding(crate::specs::Records::push_at))]
fn push_of(alloc: Global, bytes: &[u8]) -> Result<(Entry, &[u8]), RecordError>
    ensures { Reads (λ x. (x.0, x.1.now)) result (push_at bytes.now) }
{
    let (client, rest) = client_of(bytes)?;
    let (index, rest) = index_of(rest)?;
    let (stream, rest) = order_of(rest)?;
    let (source, rest) = name_in(alloc, rest)?;
    let (seq, rest) = seq_of(rest)?;
    let (rows, rest) = batch_of(alloc, rest)?;
    Ok((
        Entry::Push {
            client,
            index,
            stream,
            source,
            seq,
            rows,
        },
        rest,
    ))
}

/// A copy of some bytes.
fn copy_of(alloc: Global, bytes: &[u8]) -> Result<Seq<u8>, NoMemory>
    ensures { IfOk result (λ copy. copy ≡ bytes.now) }
{
    let mut copy = Vec::new(alloc);
    copy.extend_from_slice(bytes)?;
    Ok(Seq::from_vec(copy))
}

#[tactic(auto, unfolding(crate::specs::Records::body_bytes_at))]
fn body_of_length(
    alloc: Global,
    bytes: &[u8],
    count: usize,
) -> Result<(Seq<u8>, &[u8]), RecordError>
    ensures { Reads (λ x. (x.0, x.1.now)) result (body_bytes_at count bytes.now) }
{
    if bytes.len() < count {
        return Err(RecordError::Truncated);
    }
    let (front, rest) = bytes.split_at(count);
    match copy_of(alloc, front) {
        Ok(text) => Ok((text, rest)),
        Err(NoMemory) => Err(RecordError::NoMemory),
    }
}

#[tactic(auto, unfolding(crate::specs::Records::body_at))]
fn body_in(alloc: Global, bytes: &[u8]) -> Result<(Seq<u8>, &[u8]), RecordError>
    ensures { Reads (λ x. (x.0, x.1.now)) result (body_at bytes.now) }
{
    match u32_of(bytes) {
        Ok((count, rest)) => {
            if count > 1_048_576 {
                return Err(RecordError::BadField);
            }
            body_of_length(alloc, rest, count as usize)
        }
        Err(refused) => Err(RecordError::from(refused)),
    }
}

#[tactic(auto, unfolding(crate::specs::Records::install_at))]
fn install_of(alloc: Global, bytes: &[u8]) -> Result<(Entry, &[u8]), RecordError>
    ensures { Reads (λ x. (x.0, x.1.now)) result (install_at bytes.now) }
{
    let (client, rest) = client_of(bytes)?;
    let (index, rest) = index_of(rest)?;
    let (procedure, rest) = order_of(rest)?;
    let (text, rest) = body_in(alloc, rest)?;
    Ok((
        Entry::Install {
            client,
            index,
            procedure,
            text,
        },
        rest,
    ))
}

/// The entry in front of the bytes, and the bytes behind it. Linear in its record.
///
/// The first fault from the left is refused: `Truncated` where the bytes end, `BadKind` at a kind that is none, and
/// `BadField` at a row, a name or a text that isn't one, a client over 7, over 1,024 rows, a sequence number over
/// 2^63 - 1, or a body of more than 1,048,576 bytes.
#[tactic(auto, unfolding(crate::specs::Records::record_at))]
pub fn entry_in(alloc: Global, bytes: &[u8]) -> Result<(Entry, &[u8]), RecordError>
    ensures { Reads (λ x. (x.0, x.1.now)) result (record_at bytes.now) }
{
    match byte_of(bytes) {
        Ok((1, rest)) => call_of(alloc, rest),
        Ok((2, rest)) => push_of(alloc, rest),
        Ok((3, rest)) => step_of(rest),
        Ok((4, rest)) => install_of(alloc, rest),
        Ok(_) => Err(RecordError::BadKind),
        Err(refused) => Err(RecordError::from(refused)),
    }
}

/// The entry in front of the bytes, and how many of them are its. Linear in its record. Refuses as `entry_in` does.
pub fn read_record(alloc: Global, bytes: &[u8]) -> Result<(Entry, usize), RecordError>
    ensures found { IfOk result (λ r. IsRecordInFront bytes.now r.0 r.1) }
    ensures only { FindsRecord bytes.now result }
    ensures exact { Reads (λ r. (r.0, drop r.1 bytes.now)) result (record_at bytes.now) }
{
    match entry_in(alloc, bytes) {
        Ok((entry, rest)) => {
            let taken = bytes.len() - rest.len();
            Ok((entry, taken))
        }
        Err(refused) => Err(refused),
    }
}

//! What a request says as JSON.

ghost use Rattle.std.specs.Prelude.{◌≡◌, ◌<◌, ◌^◌, Ok, IfOk, IfErr};
ghost use Rattle.serde_json.specs.View.{view};
ghost use Rattle.ss_catalog_json.specs.Readings.{FaultsAs, object_of};
ghost use Rattle.ss_catalog_requests.specs.Shape.{call_keys, read_call, push_keys, read_push, install_keys, read_install, read_asked, read_request};

use crate::outline::{AskedOutline, RequestOutline};
use crate::values::{AnyArrayReader, ClientReader, ROW, ROWS, SeqReader};
use serde_json::Value as Json;
use ss_catalog_json::{
    NameReader, ReadError, WordReader, has_key, object_of, read_key, read_key_or,
};
use std::alloc::Global;

fn check_call_keys(alloc: Global, value: &Json) -> Result<(), ReadError>
    ensures ok { IfOk result (λ x. object_of call_keys (view value.now) ≡ Ok x) }
    ensures refused { IfErr result (FaultsAs (object_of call_keys (view value.now))) }
{
    object_of(alloc, value, &["client", "call", "args"])
}

fn read_call(alloc: Global, value: &Json) -> Result<AskedOutline, ReadError>
    ensures ok { IfOk result (λ asked. read_call (view value.now) ≡ Ok asked) }
    ensures refused { IfErr result (FaultsAs (read_call (view value.now))) }
{
    check_call_keys(alloc, value)?;
    let procedure = read_key(alloc, value, "call", &WordReader)?;
    let args = read_key(alloc, value, "args", &ROW)?;
    Ok(AskedOutline::Call { procedure, args })
}

fn push_object(alloc: Global, value: &Json) -> Result<(), ReadError>
    ensures ok { IfOk result (λ x. object_of push_keys (view value.now) ≡ Ok x) }
    ensures refused { IfErr result (FaultsAs (object_of push_keys (view value.now))) }
{
    object_of(alloc, value, &["client", "push", "source", "seq", "rows"])
}

fn read_push(alloc: Global, value: &Json) -> Result<AskedOutline, ReadError>
    ensures ok { IfOk result (λ asked. read_push (view value.now) ≡ Ok asked) }
    ensures refused { IfErr result (FaultsAs (read_push (view value.now))) }
{
    push_object(alloc, value)?;
    let stream = read_key(alloc, value, "push", &WordReader)?;
    let source = read_key(alloc, value, "source", &NameReader)?;
    let seq = read_key(alloc, value, "seq", &SeqReader)?;
    let rows = read_key(alloc, value, "rows", &ROWS)?;
    Ok(AskedOutline::Push {
        stream,
        source,
        seq,
        rows,
    })
}

fn install_object(alloc: Global, value: &Json) -> Result<(), ReadError>
    ensures ok { IfOk result (λ x. object_of install_keys (view value.now) ≡ Ok x) }
    ensures refused { IfErr result (FaultsAs (object_of install_keys (view value.now))) }
{
    object_of(alloc, value, &["client", "install", "body"])
}

fn read_install(alloc: Global, value: &Json) -> Result<AskedOutline, ReadError>
    ensures ok { IfOk result (λ asked. read_install (view value.now) ≡ Ok asked) }
    ensures refused { IfErr result (FaultsAs (read_install (view value.now))) }
{
    install_object(alloc, value)?;
    let procedure = read_key(alloc, value, "install", &WordReader)?;
    read_key(alloc, value, "body", &AnyArrayReader)?;
    Ok(AskedOutline::Install { procedure })
}

fn read_asked(alloc: Global, value: &Json) -> Result<AskedOutline, ReadError>
    ensures ok { IfOk result (λ asked. read_asked (view value.now) ≡ Ok asked) }
    ensures refused { IfErr result (FaultsAs (read_asked (view value.now))) }
{
    // With two of the keys it has the first of these forms, in which the other key isn't allowed.
    if has_key(value, "push") {
        read_push(alloc, value)
    } else if has_key(value, "install") {
        read_install(alloc, value)
    } else {
        read_call(alloc, value)
    }
}

/// What a request says, or the way to its first fault. Linear in the value, in time and in the memory of the outline.
pub(crate) fn read_request(alloc: Global, value: &Json) -> Result<RequestOutline, ReadError>
    ensures ok { IfOk result (λ said. read_request (view value.now) ≡ Ok said) }
    ensures refused { IfErr result (FaultsAs (read_request (view value.now))) }
{
    // First, since which keys may be there depends on the form.
    let what = read_asked(alloc, value)?;
    let client = read_key_or(alloc, value, "client", &ClientReader, 0)?;
    Ok(RequestOutline { client, what })
}

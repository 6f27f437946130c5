//! What is written where nothing ran, and with which status.

ghost use Rattle.std.specs.Prelude.{◌≡◌, ◌≤◌, [], ◌∷◌, IfOk, codes, string_bytes};
ghost use Rattle.serde_json.specs.Data.{string};
ghost use Rattle.ss_model.specs.ReportLines.{count};
ghost use Rattle.ss_refusals.specs.Statuses.{input_text, fault_text, fault_code, counted_word, bytes_refusal, catalog_refusal, nest_refusal, request_refusal, refusal_text, bytes_status, catalog_status, request_status, refusal_status};
ghost use Rattle.ss_refusals.specs.Sinks.{sink_of, Writes, ExitsRefused};

use crate::input::InputError;
use crate::line::line_of;
use crate::status::Status;
use ss_catalog::{CatalogError, Counted, SqlFault};
use ss_catalog_requests::RequestError;
use ss_lines::{Field, LineError, Sink, write_all};
use ss_nest::NestError;
use std::alloc::{AllocError, Global};

/// The text at status 1, of a faulty command line.
pub const USAGE: &str = "[\"usage\"]\n";

/// The text at status 3, of a fault of the source.
const READ_FAULT: &str = "[\"read_fault\"]\n";

/// The text at status 6, of out of memory.
pub const NO_MEMORY: &str = "[\"no_memory\"]\n";

/// Writes a text, as far as the sink takes it. Takes no memory.
pub fn write_line<K: Sink>(sink: &mut K, text: &str)
    ensures written { Writes text.now (sink_of K.kind sink.old sink.new) }
    ensures counts { K.kind.faults sink.old ≤ K.kind.faults sink.new }
{
    // Where the sink fails the status stays what it is: status 4 comes only in place of 0.
    let _ = write_all(sink, text.as_bytes());
}

// ---- lines

/// A refused line with its code.
fn input_line(alloc: Global, line: u64, code: &str) -> Result<String, AllocError>
    ensures { IfOk result (λ text. string_bytes text ≡ input_text line code.now []) }
{
    line_of(alloc, "input", &[Field::Number(line), Field::Text(code)])
}

// ---- what a catalogue is refused for

/// What a fault of a catalogue is told of.
#[derive(Clone, Copy, Drop)]
enum FaultIn {
    /// The catalogue on the line.
    Catalog,
    /// The body that the line installs: with it in place the catalogue has the fault. It is told behind the code of such a line.
    Body,
}

/// The code of a line that installs a body with which the catalogue is refused.
const BAD_BODY: &str = "C15";

/// A line that is refused for out of memory, which isn't told of a body.
fn memory_line(alloc: Global, line: u64, site: FaultIn) -> Result<String, AllocError>
    ensures { IfOk result (λ text. string_bytes text ≡ catalog_refusal line CatalogError.NoMemory site) }
{
    match site {
        FaultIn::Catalog => String::from_str(alloc, NO_MEMORY),
        FaultIn::Body => input_line(alloc, line, BAD_BODY),
    }
}

/// A refused line with the fault's code, and a word for what it is about.
fn word_line<'x>(
    alloc: Global,
    line: u64,
    site: FaultIn,
    code: &'x str,
    word: &'x str,
) -> Result<String, AllocError>
    ensures { IfOk result (λ text. string_bytes text ≡ fault_text site line (string code.now ∷ string word.now ∷ [])) }
{
    let (line, bad) = (Field::Number(line), Field::Text(BAD_BODY));
    let (code, word) = (Field::Text(code), Field::Text(word));
    match site {
        FaultIn::Catalog => line_of(alloc, "input", &[line, code, word]),
        FaultIn::Body => line_of(alloc, "input", &[line, bad, code, word]),
    }
}

/// A refused line with the fault's code, and the step of the procedure or trigger that it is about.
fn step_line<'x>(
    alloc: Global,
    line: u64,
    site: FaultIn,
    code: &'x str,
    name: &'x str,
    step: u32,
) -> Result<String, AllocError>
    ensures { IfOk result (λ text. string_bytes text ≡ fault_text site line (string code.now ∷ string name.now ∷ count step ∷ [])) }
{
    let (line, bad) = (Field::Number(line), Field::Text(BAD_BODY));
    let (code, name) = (Field::Text(code), Field::Text(name));
    let step = Field::Number(u64::from(step));
    match site {
        FaultIn::Catalog => line_of(alloc, "input", &[line, code, name, step]),
        FaultIn::Body => line_of(alloc, "input", &[line, bad, code, name, step]),
    }
}

/// A line that is refused for a SQL text: the step that has the text, the code of the text's own fault, and its offset in bytes.
fn text_line<'x>(
    alloc: Global,
    line: u64,
    site: FaultIn,
    name: &'x str,
    step: u32,
    fault: &'x str,
    at: usize,
) -> Result<String, AllocError>
    ensures { IfOk result (λ text. string_bytes text ≡ fault_text site line
        (string (codes "C4") ∷ string name.now ∷ count step ∷ string fault.now ∷ count at ∷ [])) }
{
    let (line, bad) = (Field::Number(line), Field::Text(BAD_BODY));
    let (code, name) = (Field::Text("C4"), Field::Text(name));
    let step = Field::Number(u64::from(step));
    let (fault, at) = (Field::Text(fault), Field::Number(at as u64));
    match site {
        FaultIn::Catalog => line_of(alloc, "input", &[line, code, name, step, fault, at]),
        FaultIn::Body => line_of(alloc, "input", &[line, bad, code, name, step, fault, at]),
    }
}

fn fault_code(alloc: Global, code: u8) -> Result<String, AllocError>
    ensures { IfOk result (λ text. string_bytes text ≡ fault_code code) }
{
    format!(in alloc; "S{code}")
}

fn counted_word(counted: Counted) -> &'static str
    ensures { result.now ≡ counted_word counted }
{
    match counted {
        Counted::Tables => "tables",
        Counted::Streams => "streams",
        Counted::Windows => "windows",
        Counted::Triggers => "triggers",
        Counted::Procedures => "procedures",
        Counted::Columns => "columns",
        Counted::Inputs => "inputs",
        Counted::Statements => "statements",
        Counted::Steps => "steps",
    }
}

fn sql_line(
    alloc: Global,
    line: u64,
    site: FaultIn,
    name: &str,
    step: u32,
    fault: SqlFault,
) -> Result<String, AllocError>
    ensures { IfOk result (λ text. string_bytes text ≡ fault_text site line
        (string (codes "C4") ∷ string name.now ∷ count step ∷ string (fault_code fault.code) ∷ count fault.at ∷ [])) }
{
    let code = fault_code(alloc, fault.code)?;
    text_line(alloc, line, site, name, step, code.as_str(), fault.at)
}

fn catalog_line(
    alloc: Global,
    line: u64,
    site: FaultIn,
    error: &CatalogError,
) -> Result<String, AllocError>
    ensures { IfOk result (λ text. string_bytes text ≡ catalog_refusal line error.now site) }
{
    match error {
        CatalogError::NoMemory => memory_line(alloc, line, site),
        CatalogError::Shape(path) => word_line(alloc, line, site, "C1", path.as_str()),
        CatalogError::Twice(name) => word_line(alloc, line, site, "C2", name.as_str()),
        CatalogError::Unknown(name) => word_line(alloc, line, site, "C3", name.as_str()),
        CatalogError::SqlFault { name, step, fault } => {
            sql_line(alloc, line, site, name.as_str(), *step, *fault)
        }
        CatalogError::WorkflowCycle(name) => word_line(alloc, line, site, "C5", name.as_str()),
        CatalogError::TriggerCycle(name) => word_line(alloc, line, site, "C6", name.as_str()),
        CatalogError::LocalityBroken { name, step } => {
            step_line(alloc, line, site, "C7", name.as_str(), *step)
        }
        CatalogError::StreamEnds(name) => word_line(alloc, line, site, "C8", name.as_str()),
        CatalogError::WindowOwner(name) => word_line(alloc, line, site, "C9", name.as_str()),
        CatalogError::Limit(counted) => word_line(alloc, line, site, "C10", counted_word(*counted)),
    }
}

/// A line that is refused for its catalogue, or for the nests of it.
fn nest_line(alloc: Global, line: u64, error: &NestError) -> Result<String, AllocError>
    ensures { IfOk result (λ text. string_bytes text ≡ nest_refusal line error.now) }
{
    let site = FaultIn::Catalog;
    match error {
        NestError::NoMemory => String::from_str(alloc, NO_MEMORY),
        NestError::Catalog(fault) => catalog_line(alloc, line, site, fault),
        NestError::Shape(path) => word_line(alloc, line, site, "N1", path.as_str()),
        NestError::Unknown(name) => word_line(alloc, line, site, "N2", name.as_str()),
        NestError::Twice(name) => word_line(alloc, line, site, "N3", name.as_str()),
        NestError::NotClosed(name) => word_line(alloc, line, site, "N4", name.as_str()),
        NestError::Touch(name) => word_line(alloc, line, site, "N5", name.as_str()),
        NestError::Window(name) => word_line(alloc, line, site, "N6", name.as_str()),
    }
}

// ---- refusals

fn bytes_line(alloc: Global, error: LineError) -> Result<String, AllocError>
    ensures { IfOk result (λ text. string_bytes text ≡ bytes_refusal error) }
{
    match error {
        LineError::NoMemory => String::from_str(alloc, NO_MEMORY),
        LineError::ReadFault => String::from_str(alloc, READ_FAULT),
        LineError::LineTooLong { line } => input_line(alloc, line, "L2"),
        LineError::InputTooLong => input_line(alloc, 0, "L3"),
        LineError::NotJson { line } => input_line(alloc, line, "L4"),
    }
}

fn request_line(alloc: Global, error: &RequestError) -> Result<String, AllocError>
    ensures { IfOk result (λ text. string_bytes text ≡ request_refusal error.now) }
{
    match error {
        RequestError::NoMemory => String::from_str(alloc, NO_MEMORY),
        RequestError::Shape { line } => input_line(alloc, *line, "C11"),
        RequestError::UnknownTarget { line } => input_line(alloc, *line, "C12"),
        RequestError::Arguments { line } => input_line(alloc, *line, "C13"),
        RequestError::TooManyRows { line } => input_line(alloc, *line, "C14"),
        RequestError::Nested { line } => input_line(alloc, *line, "C16"),
        RequestError::BadBody { line, fault } => catalog_line(alloc, *line, FaultIn::Body, fault),
    }
}

/// The text of a refusal. Linear in the texts that it carries.
fn refusal_line(alloc: Global, error: &InputError) -> Result<String, AllocError>
    ensures { IfOk result (λ text. string_bytes text ≡ refusal_text error.now) }
{
    match error {
        InputError::Line(error) => bytes_line(alloc, *error),
        InputError::NoCatalog => word_line(alloc, 1, FaultIn::Catalog, "C1", "$"),
        InputError::Catalog { line, error } => nest_line(alloc, *line, error),
        InputError::Request(error) => request_line(alloc, error),
    }
}

fn bytes_status(error: LineError) -> Status
    ensures { result ≡ bytes_status error }
{
    match error {
        LineError::NoMemory => Status::NoMemory,
        LineError::ReadFault => Status::ReadFault,
        LineError::LineTooLong { .. } => Status::Input,
        LineError::InputTooLong => Status::Input,
        LineError::NotJson { .. } => Status::Input,
    }
}

fn catalog_status(error: &NestError) -> Status
    ensures { result ≡ catalog_status error.now }
{
    match error {
        NestError::NoMemory => Status::NoMemory,
        _ => Status::Input,
    }
}

fn request_status(error: &RequestError) -> Status
    ensures { result ≡ request_status error.now }
{
    match error {
        RequestError::NoMemory => Status::NoMemory,
        RequestError::Shape { .. } => Status::Input,
        RequestError::UnknownTarget { .. } => Status::Input,
        RequestError::Arguments { .. } => Status::Input,
        RequestError::TooManyRows { .. } => Status::Input,
        RequestError::Nested { .. } => Status::Input,
        RequestError::BadBody { .. } => Status::Input,
    }
}

fn status_of(error: &InputError) -> Status
    ensures { result ≡ refusal_status error.now }
{
    match error {
        InputError::Line(error) => bytes_status(*error),
        InputError::NoCatalog => Status::Input,
        InputError::Catalog { error, .. } => catalog_status(error),
        InputError::Request(error) => request_status(error),
    }
}

/// Writes a refusal by a text of its own, or that there was no memory for this text, and answers the status.
fn refuse_line<K: Sink>(alloc: Global, sink: &mut K, error: &InputError) -> Status
    ensures refused { ExitsRefused error.now result (sink_of K.kind sink.old sink.new) }
    ensures counts { K.kind.faults sink.old ≤ K.kind.faults sink.new }
{
    match refusal_line(alloc, error) {
        Ok(text) => {
            write_line(sink, text.as_str());
            status_of(error)
        }
        Err(_) => {
            write_line(sink, NO_MEMORY);
            Status::NoMemory
        }
    }
}

/// Writes why nothing ran, and answers the status.
pub fn refuse<K: Sink>(alloc: Global, sink: &mut K, error: &InputError) -> Status
    ensures refused { ExitsRefused error.now result (sink_of K.kind sink.old sink.new) }
    ensures read_fault { refusal_status error.now ≡ Status.ReadFault → result ≡ Status.ReadFault }
    ensures counts { K.kind.faults sink.old ≤ K.kind.faults sink.new }
{
    // Out of memory and a fault of the source are written by constant texts, which take no memory.
    match status_of(error) {
        Status::NoMemory => {
            write_line(sink, NO_MEMORY);
            Status::NoMemory
        }
        Status::ReadFault => {
            write_line(sink, READ_FAULT);
            Status::ReadFault
        }
        _ => refuse_line(alloc, sink, error),
    }
}

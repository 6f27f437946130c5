//! A request as it is written: no name is looked up yet, and no row is compared with columns.
//!
//! Each value here takes memory linear in what it was read from.

use ss_catalog_json::Word;
use ss_value::{Name, Row, Rows};

/// What is asked for. `args` and `rows` are None where a text in them is over 255 bytes.
#[derive(Drop)]
pub enum AskedOutline {
    /// A call of the procedure that this names.
    Call {
        procedure: Word,
        args: Option<Row>,
    },
    /// A batch for the stream that this names.
    Push {
        stream: Word,
        source: Name,
        seq: u64,
        rows: Option<Rows>,
    },
    /// That a body be installed for the procedure that this names; the body stays in the value.
    Install {
        procedure: Word,
    },
}

/// A request: its client, and what it asks for.
#[derive(Drop)]
pub struct RequestOutline {
    /// From 0 to 7.
    pub client: u8,
    /// What it asks for.
    pub what: AskedOutline,
}

//! The names of a catalogue's elements.

ghost use Rattle.ss_catalog_outline.specs.Names.{table_name, stream_name, window_name, trigger_name, procedure_name};

use crate::types::{ProcedureOutline, StreamOutline, TableOutline, TriggerOutline, WindowOutline};
use ss_names::Named;

impl Named for TableOutline {
    ghost name = { table_name };

    fn name(&self) -> &[u8] {
        self.name.as_bytes()
    }

    fn text(&self) -> &str {
        self.name.as_str()
    }
}

impl Named for StreamOutline {
    ghost name = { stream_name };

    fn name(&self) -> &[u8] {
        self.name.as_bytes()
    }

    fn text(&self) -> &str {
        self.name.as_str()
    }
}

impl Named for WindowOutline {
    ghost name = { window_name };

    fn name(&self) -> &[u8] {
        self.name.as_bytes()
    }

    fn text(&self) -> &str {
        self.name.as_str()
    }
}

impl Named for TriggerOutline {
    ghost name = { trigger_name };

    fn name(&self) -> &[u8] {
        self.name.as_bytes()
    }

    fn text(&self) -> &str {
        self.name.as_str()
    }
}

impl Named for ProcedureOutline {
    ghost name = { procedure_name };

    fn name(&self) -> &[u8] {
        self.name.as_bytes()
    }

    fn text(&self) -> &str {
        self.name.as_str()
    }
}

//! Hints of what an entry may have made ready, put into the inboxes of the homes of these procedures, under their locks. `serve`
//! and `follow` call it behind an execution, when no partition is in hand any more.

ghost use Rattle.std.specs.Prelude.{◌≡◌, true};
ghost use Rattle.ss_model.specs.Database.{fits_entry};

use crate::engine::Engine;
use ss_model::{Entry, Life};
use ss_proc::Runner;
use ss_sched::wake_list;
use ss_settle::Gate;
use std::sync::Wait;

impl<I: Life, N: Runner + Drop, G: Gate + Drop> Engine<I, N, G> {
    /// Puts the hint of each procedure that an entry may have made ready into the inbox of its home, whose lock it takes. Only
    /// at other homes than where the entry ran somebody is woken. Takes no memory; a look at each procedure beside what
    /// `wake_list` takes.
    pub(crate) fn wake<R: Wait>(&self, rt: &R, p: u8, entry: &Entry)
        requires { fits_entry I.catalog entry.now ≡ true }
    {
        let woken = wake_list(&self.catalog, entry);
        for (procedure, home) in self.homes.as_slice().iter().enumerate() {
            if woken.has(procedure as u8) {
                self.hub.put_hint(rt, p, *home, procedure as u16);
            }
        }
    }
}

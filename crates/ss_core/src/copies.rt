//! Exact copies of events.

use crate::machine::Event;
use ss_model::copy_listed;
use ss_value::{Copies, NoMemory};
use std::alloc::Global;

impl Copies for Event {
    fn duplicate(&self, alloc: Global) -> Result<Event, NoMemory> {
        match self {
            Event::Take { actor, part } => Ok(Event::Take {
                actor: *actor,
                part: *part,
            }),
            Event::Commit {
                actor,
                listed,
                seen,
            } => {
                let listed = copy_listed(alloc, listed)?;
                Ok(Event::Commit {
                    actor: *actor,
                    listed,
                    seen: *seen,
                })
            }
            Event::Put { actor, part } => Ok(Event::Put {
                actor: *actor,
                part: *part,
            }),
            Event::WriteBody { count } => Ok(Event::WriteBody { count: *count }),
            Event::SyncBody => Ok(Event::SyncBody),
            Event::OpenGate => Ok(Event::OpenGate),
            Event::SyncGate => Ok(Event::SyncGate),
            Event::Receive => Ok(Event::Receive),
            Event::CutOther { actor } => Ok(Event::CutOther { actor: *actor }),
            Event::WriteGeneration => Ok(Event::WriteGeneration),
            Event::SyncGeneration => Ok(Event::SyncGeneration),
            Event::Select => Ok(Event::Select),
            Event::SyncSelect => Ok(Event::SyncSelect),
            Event::Fail => Ok(Event::Fail),
            Event::Crash { gate, selector } => Ok(Event::Crash {
                gate: *gate,
                selector: *selector,
            }),
            Event::Recover => Ok(Event::Recover),
        }
    }
}

//! The refusal of a SQL text, as one of the step and of the procedure or trigger that has it.

ghost use Rattle.std.specs.Prelude.{◌≡◌};
ghost use Rattle.ss_catalog_resolve.specs.Steps.{refusal_at};
ghost use Rattle.ss_catalog_resolve.specs.Bodies.{IsSiteOf};

use crate::fault::{BodyFault, SqlFault, SqlRefusal, SqlSite};
use ss_value::{Name, NoMemory};
use std::alloc::Global;

/// The refusal of a text, as one of the step or statement of this number.
pub fn refusal_at(number: usize, refused: SqlRefusal<SqlFault>) -> SqlRefusal<BodyFault>
    ensures { result ≡ refusal_at number refused }
{
    match refused {
        SqlRefusal::NoMemory => SqlRefusal::NoMemory,
        SqlRefusal::Fault(fault) => SqlRefusal::Fault(BodyFault { number, fault }),
    }
}

/// The refusal of a body, as one of the procedure or trigger of this name.
pub fn body_refusal(
    alloc: Global,
    name: &Name,
    refused: SqlRefusal<BodyFault>,
) -> SqlRefusal<SqlSite>
    ensures { IsSiteOf name.now refused result }
{
    match refused {
        SqlRefusal::NoMemory => SqlRefusal::NoMemory,
        SqlRefusal::Fault(fault) => match name.copy(alloc) {
            Ok(name) => SqlRefusal::Fault(SqlSite {
                name,
                number: fault.number,
                fault: fault.fault,
            }),
            Err(NoMemory) => SqlRefusal::NoMemory,
        },
    }
}

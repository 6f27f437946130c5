//! The least fault so far.

ghost use Rattle.std.specs.Prelude.{◌≡◌};
ghost use Rattle.ss_sql_type.specs.Refusals.{fault_offset, fault_number, is_before, least_with, least_of, fault_unless};

use crate::scope::TypeError;

/// The offset of a fault.
fn fault_offset(fault: TypeError) -> usize
    ensures { result ≡ fault_offset fault }
{
    match fault {
        TypeError::NoMemory => 0,
        TypeError::UnknownName(at) => at,
        TypeError::WrongType(at) => at,
        TypeError::KeyIsSet(at) => at,
        TypeError::WrongCount(at) => at,
        TypeError::NotAggregated(at) => at,
    }
}

/// The number of a fault, as of the codes S5 to S9. Of two faults at one offset the lesser number is reported.
fn fault_number(fault: TypeError) -> u8
    ensures { result ≡ fault_number fault }
{
    match fault {
        TypeError::NoMemory => 0,
        TypeError::UnknownName(_) => 5,
        TypeError::WrongType(_) => 6,
        TypeError::KeyIsSet(_) => 7,
        TypeError::WrongCount(_) => 8,
        TypeError::NotAggregated(_) => 9,
    }
}

/// Whether a fault is less than another, by offset and then by number.
fn is_before(fault: TypeError, other: TypeError) -> bool
    ensures { result ≡ is_before fault other }
{
    let (at, other_at) = (fault_offset(fault), fault_offset(other));
    at < other_at || (at == other_at && fault_number(fault) < fault_number(other))
}

/// Keeps the lesser of the fault found so far and this one.
pub fn record_fault(found: &mut Option<TypeError>, fault: TypeError)
    ensures { found.new ≡ least_with found.old fault }
{
    match *found {
        None => *found = Some(fault),
        Some(first) => {
            if is_before(fault, first) {
                *found = Some(fault);
            }
        }
    }
}

/// Finds this fault, where its rule is broken.
pub fn check(found: &mut Option<TypeError>, right: bool, fault: TypeError)
    ensures { found.new ≡ least_of found.old (fault_unless right fault) }
{
    if !right {
        record_fault(found, fault);
    }
}

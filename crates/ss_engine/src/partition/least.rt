//! The least members of small sets of numbers: of partitions for `touched`, of procedures for `follow`. It touches nothing.

ghost use Rattle.std.specs.Prelude.{◌<◌, ◌≤◌, IfSome, IfNone};
ghost use Rattle.ss_engine.specs.Least.{IsLeastIn, NoneBelow};

use ss_value::{PartSet, ProcSet};

/// The least member of a set of partitions, of the first so many; None exactly where none of these is a member.
pub(crate) fn least_of(set: PartSet, parts: u8) -> Option<u8>
    requires { parts ≤ 8 }
    ensures some { IfSome result (λ p. (p < parts) × IsLeastIn set p) }
    ensures none { IfNone result (NoneBelow parts set) }
{
    for p in 0..parts {
        if set.has(p) {
            return Some(p);
        }
    }
    None
}

/// The least member of a set of procedures; None exactly where it has none.
pub(crate) fn first_of(set: ProcSet) -> Option<u16>
    ensures some { IfSome result (λ q. (q < 64) × IsLeastIn set q) }
    ensures none { IfNone result (NoneBelow 64 set) }
{
    for q in 0..64 {
        if set.has(q) {
            return Some(u16::from(q));
        }
    }
    None
}

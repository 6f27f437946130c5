//! The bound on columns that the calls need: the position of a column is one byte in a typed tree.

ghost use Rattle.std.specs.Prelude.{◌≡◌};
ghost use Rattle.std.specs.List.{list_all};
ghost use Rattle.ss_sql_type.specs.declared.scope.Named.{Named};
ghost use Rattle.ss_sql_type.specs.Queries.{is_short, scope_narrow};

use crate::scope::{Named, Scope};
use ss_value::Schema;

/// Whether a list of columns has 256 at most.
fn is_short(columns: &Schema) -> bool
    ensures { result ≡ is_short columns.now }
{
    columns.len() <= 256
}

/// Whether each of these sources or targets has 256 columns at most.
fn are_short(list: &[Named]) -> bool
    ensures { result ≡ list_all (λ (n : Named). is_short n.schema) list.now }
{
    list.iter().all(|named| is_short(&named.schema))
}

/// Whether each source and target has 256 columns at most, and there are 256 parameters at most. The calls need this.
pub fn is_narrow(scope: &Scope) -> bool
    ensures { result ≡ scope_narrow scope.now }
{
    let sources = are_short(scope.sources.as_slice());
    let targets = are_short(scope.targets.as_slice());
    sources && targets && is_short(&scope.params)
}

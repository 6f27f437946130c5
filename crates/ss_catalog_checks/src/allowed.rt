//! Which queries and statements a touch set allows.

ghost use Rattle.std.specs.Prelude.{◌≡◌, ◌==◌, Some, slice_get};
ghost use Rattle.std.specs.List.{list_any};
ghost use Rattle.ss_model.specs.declared.catalog.Placement.TheVariants.{Part, By};
ghost use Rattle.ss_model.specs.Contents.{table_placement};
ghost use Rattle.ss_model.specs.Partitions.{may_use};
ghost use Rattle.ss_catalog_checks.specs.Localities.{split_by, is_limited, is_argument, is_argument_item, gives_argument, selects_argument, is_local_table, is_local_source, is_local_join, is_local_query, takes_values, takes_items, is_local_statement};

use crate::conjuncts::{WantedConjunct, has_conjunct};
use ss_model::{Catalog, Placement, Touch};
use ss_sql_trees::{Expr, Joined, Query, SelectItem, SourceId, Statement, Target};
use ss_value::Seq;

/// The placement of a table, and None where there is no table of this number.
fn placement_of(catalog: &Catalog, table: u16) -> Option<Placement>
    ensures { result ≡ table_placement (slice_get catalog.now.tables table) }
{
    match catalog.tables.get(usize::from(table)) {
        Some(table) => Some(table.placement),
        None => None,
    }
}

/// Whether a part is one of these.
fn is_listed(parts: &[u8], part: u8) -> bool
    ensures { result ≡ list_any (λ x. x == part) parts.now }
{
    parts.iter().any(|listed| *listed == part)
}

/// Whether a table on this part may be named under a touch set.
fn may_use_whole(touch: &Touch, part: u8) -> bool
    ensures { result ≡ may_use touch.now (Some (Part part)) }
{
    match touch {
        Touch::Part(own) => *own == part,
        Touch::Arg(_) => false,
        Touch::Multi(parts) => is_listed(parts.as_slice(), part),
        Touch::All => true,
    }
}

/// Whether a table that is split by this column may be named under a touch set.
fn may_use_split(touch: &Touch, column: u8) -> bool
    ensures { result ≡ may_use touch.now (Some (By column)) }
{
    match touch {
        Touch::Part(_) => false,
        Touch::Arg(_) => true,
        Touch::Multi(_) => false,
        Touch::All => true,
    }
}

/// Whether a table of this placement may be named under a touch set.
fn may_use(touch: &Touch, placement: Option<Placement>) -> bool
    ensures { result ≡ may_use touch.now placement }
{
    match placement {
        Some(Placement::Part(part)) => may_use_whole(touch, part),
        Some(Placement::By(column)) => may_use_split(touch, column),
        None => false,
    }
}

/// The argument and the split column, where the touch set is by argument and the table is split.
fn split_by(touch: &Touch, placement: Option<Placement>) -> Option<(u8, u8)>
    ensures { result ≡ split_by touch.now placement }
{
    match touch {
        Touch::Arg(argument) => match placement {
            Some(Placement::By(column)) => Some((*argument, column)),
            Some(Placement::Part(_)) => None,
            None => None,
        },
        Touch::Part(_) => None,
        Touch::Multi(_) => None,
        Touch::All => None,
    }
}

/// Whether a table of this placement is limited to the argument's rows, where it has to be.
fn is_limited(touch: &Touch, placement: Option<Placement>, source: u8, test: &Option<Expr>) -> bool
    ensures { result ≡ is_limited touch.now placement source test.now }
{
    match split_by(touch, placement) {
        Some((argument, column)) => {
            let wanted = WantedConjunct {
                source,
                column,
                argument,
            };
            has_conjunct(wanted, test)
        }
        None => true,
    }
}

/// Whether an expression is this argument.
fn is_argument(argument: u8, value: &Expr) -> bool
    ensures { result ≡ is_argument argument (Some value.now) }
{
    match value {
        Expr::Param(number) => *number == argument,
        Expr::Lit(_) => false,
        Expr::Col { .. } => false,
        Expr::Unary { .. } => false,
        Expr::Binary { .. } => false,
    }
}

/// Whether an item is this argument.
fn is_argument_item(argument: u8, item: &SelectItem) -> bool
    ensures { result ≡ is_argument_item argument (Some item.now) }
{
    match item {
        SelectItem::Plain(value) => is_argument(argument, value),
        SelectItem::Count => false,
        SelectItem::Sum(_) => false,
        SelectItem::Min(_) => false,
        SelectItem::Max(_) => false,
    }
}

/// Whether values give just the argument for the split column, where they have to.
fn gives_argument(touch: &Touch, placement: Option<Placement>, values: &Seq<Expr>) -> bool
    ensures { result ≡ gives_argument touch.now placement values.now }
{
    match split_by(touch, placement) {
        Some((argument, column)) => match values.get(usize::from(column)) {
            Some(value) => is_argument(argument, value),
            None => false,
        },
        None => true,
    }
}

/// Whether items give just the argument for the split column, where they have to.
fn selects_argument(touch: &Touch, placement: Option<Placement>, items: &Seq<SelectItem>) -> bool
    ensures { result ≡ selects_argument touch.now placement items.now }
{
    match split_by(touch, placement) {
        Some((argument, column)) => match items.get(usize::from(column)) {
            Some(item) => is_argument_item(argument, item),
            None => false,
        },
        None => true,
    }
}

/// Whether a table may be read or changed under this WHERE.
fn is_local_table(
    catalog: &Catalog,
    touch: &Touch,
    table: u16,
    source: u8,
    test: &Option<Expr>,
) -> bool
    ensures { result ≡ is_local_table catalog.now touch.now table source test.now }
{
    let placement = placement_of(catalog, table);
    may_use(touch, placement) && is_limited(touch, placement, source, test)
}

/// Whether a source may be read under this WHERE.
fn is_local_source(
    catalog: &Catalog,
    touch: &Touch,
    from: SourceId,
    source: u8,
    test: &Option<Expr>,
) -> bool
    ensures { result ≡ is_local_source catalog.now touch.now from source test.now }
{
    match from {
        SourceId::Table(table) => is_local_table(catalog, touch, table, source, test),
        // Only tables have a placement.
        SourceId::Window(_) => true,
        SourceId::Batch(_) => true,
        SourceId::Inserted => true,
    }
}

/// Whether the source of a JOIN may be read under this WHERE.
fn is_local_join(
    catalog: &Catalog,
    touch: &Touch,
    joined: &Option<Joined>,
    test: &Option<Expr>,
) -> bool
    ensures { result ≡ is_local_join catalog.now touch.now joined.now test.now }
{
    match joined {
        // The columns of the source of FROM have source 0, those of the source of JOIN source 1.
        Some(joined) => is_local_source(catalog, touch, joined.source, 1, test),
        None => true,
    }
}

/// Whether a touch set allows a query. Linear in the ANDs of its WHERE.
pub(crate) fn is_local_query(catalog: &Catalog, touch: &Touch, query: &Query) -> bool
    ensures { result ≡ is_local_query catalog.now touch.now query.now }
{
    is_local_source(catalog, touch, query.from, 0, &query.test)
        && is_local_join(catalog, touch, &query.joined, &query.test)
}

/// Whether these values may go into a target.
fn takes_values(catalog: &Catalog, touch: &Touch, target: Target, values: &Seq<Expr>) -> bool
    ensures { result ≡ takes_values catalog.now touch.now target values.now }
{
    match target {
        Target::Table(table) => {
            let placement = placement_of(catalog, table);
            may_use(touch, placement) && gives_argument(touch, placement, values)
        }
        Target::Window(_) => true,
    }
}

/// Whether the rows of a query with these items may go into a target.
fn takes_items(catalog: &Catalog, touch: &Touch, target: Target, items: &Seq<SelectItem>) -> bool
    ensures { result ≡ takes_items catalog.now touch.now target items.now }
{
    match target {
        Target::Table(table) => {
            let placement = placement_of(catalog, table);
            may_use(touch, placement) && selects_argument(touch, placement, items)
        }
        Target::Window(_) => true,
    }
}

/// Whether a touch set allows a statement. Linear in the ANDs of its WHERE.
pub(crate) fn is_local_statement(catalog: &Catalog, touch: &Touch, statement: &Statement) -> bool
    ensures { result ≡ is_local_statement catalog.now touch.now statement.now }
{
    match statement {
        Statement::InsertValues { target, values } => takes_values(catalog, touch, *target, values),
        Statement::InsertQuery { target, query } => is_local_query(catalog, touch, query)
            && takes_items(catalog, touch, *target, &query.items),
        Statement::Update { table, test, .. } => is_local_table(catalog, touch, *table, 0, test),
        Statement::Delete { table, test } => is_local_table(catalog, touch, *table, 0, test),
    }
}

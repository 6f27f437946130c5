//! From plain trees to typed trees: names become numbers, and every expression has its type.
//!
//! [`typing`] has the three calls. Each walks its tree once and keeps the least fault that it meets,
//! by offset and then by number; a tree without faults is a typed tree by the end of that walk. `specs/`
//! states the rules apart from the walk: which faults a tree has, rule by rule (`statement_faults`,
//! `query_faults`, `condition_faults`), and its typed tree (`typed_statement` and the
//! like). A tree that is given is well typed for all schemas that agree with the scope (`Agrees`).
//!
//! - [`scope`]: what may be named, and why a tree is refused; [`column_limit`]: the bound on its columns
//! - [`names`]: what names refer to; [`columns`], [`grouped`]: columns by hash
//! - [`kinds`]: the types of expressions, and what a context needs
//! - [`expr`], [`items`], [`query`], [`statement`]: the walk, which is this crate's own: where it finds no memory, some
//!   faults are found and others aren't
//! - [`first_fault`]: the least fault so far; [`laws`]: a tree has one answer
//!
//! A name that is not known has no type (None), so that it is reported once, and never again as a wrong
//! type of whatever holds it.
//!
//! Columns and parameters are looked up by hash: each list of them that a tree may name gets an index,
//! once for each tree, from a name to its first position. The columns of GROUP BY are a set, in which the
//! columns of items are sought, and so are the columns that earlier SETs set. So typing takes time linear
//! in the tree, in the sources and targets, and in the columns of those that are named, as far as hashes
//! spread the names; the hasher's seed is fixed. What is looked up a few times only is walked: the sources
//! at most twice for each tree, the targets once, and at each SET the key of its table. Every call that
//! allocates may answer `NoMemory` instead.
//!
//! The tests are cases of `ss_sql_cases`: texts with the types or faults that a person reads off the rules.
#![tactic(auto)]

mod column_limit;
mod columns;
mod expr;
mod first_fault;
mod grouped;
mod items;
mod kinds;
mod laws;
mod names;
mod query;
mod scope;
mod statement;
mod typing;

pub use column_limit::is_narrow;
pub use columns::Columns;
pub use expr::{TypedExpr, kind_of_expr};
pub use first_fault::{check, record_fault};
pub use grouped::Grouped;
pub use items::{check_item_limit, has_aggregate, is_aggregate, item_kind, nat_of};
pub use kinds::{
    Needs, ValueKind, first_needs, fits, gives, kind_of, may_be, may_be_value, may_compare,
    sign_kind, value_kind,
};
pub use laws::a_tree_has_one_answer;
pub use names::{
    Names, column_offset, columns_of, kind_at, kind_in, resolve, same_name, source_named,
};
pub use query::{check_count, check_known, query_names, wanted_columns};
pub use scope::{Named, Scope, TypeError};
pub use typing::{type_condition, type_query, type_statement};

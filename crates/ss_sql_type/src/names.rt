//! What names refer to.

ghost use Rattle.std.specs.Prelude.{◌≡◌, ◌≤◌, length, IsTrue, IfOk};
ghost use Rattle.std.specs.Option.{option_copied, option_map, ok_or};
ghost use Rattle.ss_sql_type.specs.declared.scope.TypeError.TheVariants.{UnknownName};
ghost use Rattle.ss_sql_type.specs.Names.{same_name, source_named, column_named, columns_of, is_narrow, is_source, one_of, column_of, column_behind, resolve, column_offset, kind_in, kind_at};

use crate::columns::Columns;
use crate::kinds::{ValueKind, kind_of};
use crate::scope::{Named, TypeError};
use ss_sql_lex::{ColumnTree, NameTree};
use ss_sql_trees::ColAt;
use ss_value::{Column, Name, NoMemory};
use std::alloc::Global;
use std::marker::Model;

/// What the names in an expression may refer to, with each list of columns hashed.
pub struct Names<'a> {
    /// Source 0: FROM, or the table that a statement changes; None where it is not known, or there is none.
    first: Option<&'a Named>,
    /// Source 1: JOIN.
    second: Option<&'a Named>,
    /// The columns of source 0.
    first_columns: Columns<'a>,
    /// The columns of source 1.
    second_columns: Columns<'a>,
    /// The parameters.
    params: Columns<'a>,
}

// By hand, so that letting the names go is one call and not one for each part of each index.
impl Drop for Names<'_> {
    fn drop(self) {
        let Names {
            first: _,
            second: _,
            first_columns: _,
            second_columns: _,
            params: _,
        } = self;
    }
}

impl<'a> Model for Names<'a> {
    ghost use Rattle.std.specs.Prelude.{◌≡◌};
    ghost use Rattle.std.specs.Option.{option_copied};
    ghost use Rattle.ss_sql_type.specs.Names.{Reach, columns_of};

    ghost Value = { Reach };

    ghost view = { λ n. record { first = option_copied n.first; second = option_copied n.second; params = n.params } };

    ghost invariant = { λ n. (n.first_columns ≡ columns_of (option_copied n.first)) × (n.second_columns ≡ columns_of (option_copied n.second)) };
}

impl<'a> Names<'a> {
    /// The names of at most two sources and of the parameters, in time linear in their columns.
    ///
    /// Takes a hash table for each of these lists.
    pub fn new(
        alloc: Global,
        first: Option<&'a Named>,
        second: Option<&'a Named>,
        params: &'a [Column],
    ) -> Result<Names<'a>, NoMemory>
        ensures { IfOk result (λ names. names ≡ record { first = option_copied first.entry; second = option_copied second.entry; params = params.now }) }
    {
        let first_columns = Columns::new(alloc, columns_of(first))?;
        let second_columns = Columns::new(alloc, columns_of(second))?;
        let params = Columns::new(alloc, params)?;
        Ok(Names {
            first,
            second,
            first_columns,
            second_columns,
            params,
        })
    }

    /// Source 0.
    pub fn first(&self) -> Option<&'a Named>
        ensures { option_copied result ≡ self.now.first }
    {
        self.first
    }

    /// Source 1.
    pub fn second(&self) -> Option<&'a Named>
        ensures { option_copied result ≡ self.now.second }
    {
        self.second
    }

    /// The parameters.
    pub fn params(&self) -> &'a [Column]
        ensures { result.now ≡ self.now.params }
    {
        self.params.as_slice()
    }

    /// The position of the column with a name in source 0.
    pub fn in_first(&self, name: &Name) -> Option<u8>
        requires { IsTrue (is_narrow self.now) }
        ensures { result ≡ column_named (columns_of self.now.first) name.now }
    {
        column_named(&self.first_columns, name)
    }

    /// The position of the column with a name in source 1.
    pub fn in_second(&self, name: &Name) -> Option<u8>
        requires { IsTrue (is_narrow self.now) }
        ensures { result ≡ column_named (columns_of self.now.second) name.now }
    {
        column_named(&self.second_columns, name)
    }

    /// The position of the parameter with a name.
    pub fn in_params(&self, name: &Name) -> Option<u8>
        requires { IsTrue (is_narrow self.now) }
        ensures { result ≡ column_named self.now.params name.now }
    {
        column_named(&self.params, name)
    }
}

/// Whether two names are the same.
pub fn same_name(a: &Name, b: &Name) -> bool
    ensures { result ≡ same_name a.now b.now }
{
    a.as_bytes() == b.as_bytes()
}

/// The source or target with a name, the first of several. Linear in the list.
pub fn source_named<'a>(list: &'a [Named], name: &Name) -> Option<&'a Named>
    ensures { option_copied result ≡ source_named list.now name.now }
{
    list.iter().find(|named| same_name(&named.name, name))
}

/// The position of the column with a name, as one byte.
fn column_named(columns: &Columns, name: &Name) -> Option<u8>
    requires { length columns.now ≤ 256 }
    ensures { result ≡ column_named columns.now name.now }
{
    match columns.position(name) {
        // There are 256 columns at most, so the position fits a byte.
        Some(position) => Some(position as u8),
        None => None,
    }
}

/// The columns of a source, and none where it is not known.
pub fn columns_of<'a>(source: Option<&'a Named>) -> &'a [Column]
    ensures { result.now ≡ columns_of (option_copied source.entry) }
{
    match source {
        Some(source) => source.schema.as_slice(),
        None => &[],
    }
}

/// Whether a source has this name.
fn is_source(source: Option<&Named>, name: &Name) -> bool
    ensures { result ≡ is_source (option_copied source.entry) name.now }
{
    match source {
        Some(source) => same_name(&source.name, name),
        None => false,
    }
}

/// The column that a name without a dot refers to, which has to be in one source and not in both.
fn one_of(at: usize, first: Option<u8>, second: Option<u8>) -> Result<ColAt, TypeError>
    ensures { result ≡ one_of at first second }
{
    match (first, second) {
        (Some(column), None) => Ok(ColAt { source: 0, column }),
        (None, Some(column)) => Ok(ColAt { source: 1, column }),
        _ => Err(TypeError::UnknownName(at)),
    }
}

/// The column at a position of a source, or the fault of a name that refers to no column.
fn column_in(source: u8, position: Option<u8>, name: &NameTree) -> Result<ColAt, TypeError>
    ensures { result ≡ ok_or (option_map (column_of source) position) (UnknownName name.now.at) }
{
    match position {
        Some(column) => Ok(ColAt { source, column }),
        None => Err(TypeError::UnknownName(name.at)),
    }
}

/// The column that a name behind a source's name and a dot refers to.
fn column_behind(names: &Names, source: &NameTree, name: &NameTree) -> Result<ColAt, TypeError>
    requires { IsTrue (is_narrow names.now) }
    ensures { result ≡ column_behind names.now source.now name.now }
{
    if is_source(names.first(), &source.name) {
        column_in(0, names.in_first(&name.name), name)
    } else if is_source(names.second(), &source.name) {
        column_in(1, names.in_second(&name.name), name)
    } else {
        Err(TypeError::UnknownName(source.at))
    }
}

/// The column that a tree refers to, or the fault in its name. Takes the time of two hashes at most.
pub fn resolve(names: &Names, tree: &ColumnTree) -> Result<ColAt, TypeError>
    requires { IsTrue (is_narrow names.now) }
    ensures { result ≡ resolve names.now tree.now }
{
    match &tree.source {
        Some(source) => column_behind(names, source, &tree.name),
        None => one_of(
            tree.name.at,
            names.in_first(&tree.name.name),
            names.in_second(&tree.name.name),
        ),
    }
}

/// The offset of a column's first token.
pub fn column_offset(tree: &ColumnTree) -> usize
    ensures { result ≡ column_offset tree.now }
{
    match &tree.source {
        Some(source) => source.at,
        None => tree.name.at,
    }
}

/// The type of the column at a position of a list, if there is one.
pub fn kind_in(columns: &[Column], column: u8) -> Option<ValueKind>
    ensures { result ≡ kind_in columns.now column }
{
    match columns.get(column as usize) {
        Some(column) => Some(kind_of(column.kind)),
        None => None,
    }
}

/// The type of a column of a source.
pub fn kind_at(names: &Names, at: ColAt) -> Option<ValueKind>
    ensures { result ≡ kind_at names.now at }
{
    if at.source == 0 {
        kind_in(columns_of(names.first()), at.column)
    } else {
        kind_in(columns_of(names.second()), at.column)
    }
}

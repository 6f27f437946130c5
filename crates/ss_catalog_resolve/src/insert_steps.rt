//! A procedure whose steps are read, with its own names indexed, and its `insert` steps.

ghost use Rattle.std.specs.Prelude.{◌≡◌, map, true, IsTrue, IfOk};
ghost use Rattle.std.specs.List.{list_all, zip};
ghost use Rattle.ss_names.specs.Names.{itself, column_name};
ghost use Rattle.ss_sql_type.specs.Queries.{is_short};
ghost use Rattle.ss_catalog_resolve.specs.Numbers.{number_in, column_number};
ghost use Rattle.ss_catalog_resolve.specs.Answers.{Answers};
ghost use Rattle.ss_catalog_resolve.specs.Steps.{given_expr, is_given_kind, given_fault, InsertReads};

use crate::fault::{BodyFault, SqlFault, SqlRefusal};
use crate::outline_index::OutlineIndex;
use crate::references::{column_number, number_of};
use ss_catalog_json::Word;
use ss_catalog_outline::{GivenOutline, ProcedureOutline};
use ss_model::Step;
use ss_names::NameIndex;
use ss_sql_trees::{Expr, Statement, Target};
use ss_value::{ColType, Column, NoMemory, Seq, is_of};
use std::alloc::Global;

/// A procedure with indexes of its arguments and inputs. It borrows their names, and takes a reference and a hash for
/// each.
#[derive(Drop)]
pub struct Body<'a> {
    pub names: &'a OutlineIndex<'a>,
    pub procedure: &'a ProcedureOutline,
    args: NameIndex<'a>,
    inputs: NameIndex<'a>,
    ghost short: { is_short procedure.now.args ≡ true },
    ghost args_named: { args ≡ map column_name procedure.now.args },
    ghost inputs_named: { inputs ≡ map itself procedure.now.inputs },
}

impl<'a> Body<'a> {
    /// Indexes the arguments and inputs of a procedure.
    pub fn new(
        alloc: Global,
        names: &'a OutlineIndex<'a>,
        procedure: &'a ProcedureOutline,
    ) -> Result<Body<'a>, NoMemory>
        requires { IsTrue (is_short procedure.now.args) }
        ensures ok { IfOk result (λ body. body.names.now ≡ names.now) }
        ensures procedure { IfOk result (λ body. body.procedure.now ≡ procedure.now) }
    {
        let args = NameIndex::new(alloc, procedure.args.as_slice())?;
        let inputs = NameIndex::new(alloc, procedure.inputs.as_slice())?;
        Ok(Body {
            names,
            procedure,
            args,
            inputs,
        })
    }

    /// The position of an input.
    pub fn input(&self, stream: &Word) -> usize
        ensures { result ≡ number_in self.now.procedure.now.inputs stream.now }
    {
        number_of(&self.inputs, stream.as_slice())
    }

    /// The position of an argument.
    fn argument(&self, name: &Word) -> u8
        ensures { result ≡ column_number self.now.procedure.now.args name.now }
    {
        column_number(&self.args, name.as_slice())
    }

    fn given_expr(&self, alloc: Global, given: &GivenOutline) -> Result<Expr, NoMemory>
        ensures { IfOk result (λ expr. expr ≡ given_expr self.now.procedure.now.args given.now) }
    {
        match given {
            GivenOutline::Value(value) => {
                let value = value.copy(alloc)?;
                Ok(Expr::Lit(value))
            }
            GivenOutline::Arg(name) => Ok(Expr::Param(self.argument(name))),
        }
    }

    fn given_exprs(&self, alloc: Global, values: &[GivenOutline]) -> Result<Seq<Expr>, NoMemory>
        ensures { IfOk result (λ exprs. exprs ≡ map (given_expr self.now.procedure.now.args) values.now) }
    {
        let mut exprs = Seq::new(alloc);
        for given in values {
            let expr = self.given_expr(alloc, given)?;
            exprs.push(expr)?;
        }
        Ok(exprs)
    }

    /// Whether a value is of this type.
    fn is_given_kind(&self, kind: ColType, given: &GivenOutline) -> bool
        ensures { result ≡ is_given_kind self.now.procedure.now.args kind given.now }
    {
        match given {
            GivenOutline::Value(value) => is_of(kind, value),
            GivenOutline::Arg(name) => {
                match self.procedure.args.get(self.argument(name) as usize) {
                    Some(column) => kind == column.kind,
                    None => false,
                }
            }
        }
    }

    /// Whether each value is of its column's type.
    fn are_given_kinds(&self, columns: &[Column], values: &[GivenOutline]) -> bool
        ensures { result ≡ list_all (λ x. is_given_kind self.now.procedure.now.args x.0.kind x.1) (zip columns.now values.now) }
    {
        columns
            .iter()
            .zip(values)
            .all(|(column, given)| self.is_given_kind(column.kind, given))
    }

    /// The fault in values for these columns, if there is one.
    fn given_fault(&self, columns: &[Column], values: &[GivenOutline]) -> Option<SqlFault>
        ensures { result ≡ given_fault self.now.procedure.now.args columns.now values.now }
    {
        // Their number is compared before their types, as S8 goes before S6.
        if values.len() != columns.len() {
            Some(SqlFault { code: 8, at: 0 })
        } else if self.are_given_kinds(columns, values) {
            None
        } else {
            Some(SqlFault { code: 6, at: 0 })
        }
    }

    /// An `insert` step, or the fault in its values.
    pub fn insert_step(
        &self,
        alloc: Global,
        number: usize,
        table: &Word,
        values: &[GivenOutline],
    ) -> Result<Step, SqlRefusal<BodyFault>>
        ensures { Answers (InsertReads self.now.names.now.outline.now self.now.procedure.now number table.now values.now) result }
    {
        if let Some(fault) = self.given_fault(self.names.table_columns(table), values) {
            return Err(SqlRefusal::Fault(BodyFault { number, fault }));
        }
        let values = self.given_exprs(alloc, values)?;
        let target = Target::Table(self.names.table_number(table));
        Ok(Step::Sql(Statement::InsertValues { target, values }))
    }
}

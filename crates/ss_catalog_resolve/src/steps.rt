//! The steps of a procedure.

ghost use Rattle.std.specs.Prelude.{◌≡◌, ◌≤◌, map, length, IsTrue, None, IfOk, OnOk};
ghost use Rattle.std.specs.List.{range_with_len};
ghost use Rattle.ss_catalog_outline.specs.Limits.{step_count};
ghost use Rattle.ss_catalog_outline.specs.declared.types.StepOutline.TheVariants as outline;
ghost use Rattle.ss_model.specs.declared.catalog.Step.TheVariants.{Sql, AbortIf as AbortStep, Return};
ghost use Rattle.ss_model.specs.declared.catalog.Inner.TheVariants.{Sql as InnerSql, AbortIf as InnerAbort};
ghost use Rattle.ss_sql_type.specs.Queries.{is_short, scope_narrow};
ghost use Rattle.ss_catalog_resolve.specs.Answers.{Answers};
ghost use Rattle.ss_catalog_resolve.specs.Texts.{StatementSays, ConditionSays, QuerySays};
ghost use Rattle.ss_catalog_resolve.specs.Steps.{column_item, whole_table, OfText, columns_of_stream, step_scope, InnerReads, StepReads};

use crate::fault::{BodyFault, SqlRefusal};
use crate::in_order::{ItemReader, read_in_order};
use crate::insert_steps::Body;
use crate::refusals::refusal_at;
use crate::texts::{condition_of, query_of, statement_of};
use ss_catalog_json::Word;
use ss_catalog_outline::{InnerOutline, StepOutline};
use ss_model::{Inner, Step};
use ss_sql_trees::{Expr, Query, SelectItem, SourceId, Statement};
use ss_sql_type::Scope;
use ss_value::{Column, NoMemory, Seq};
use std::alloc::Global;

// ---- steps of one text

fn sql_step(
    alloc: Global,
    scope: &Scope,
    number: usize,
    text: &Word,
) -> Result<Step, SqlRefusal<BodyFault>>
    requires { IsTrue (scope_narrow scope.now) }
    ensures { Answers (OfText number Sql (StatementSays scope.now text.now)) result }
{
    match statement_of(alloc, scope, text) {
        Ok(statement) => Ok(Step::Sql(statement)),
        Err(refused) => Err(refusal_at(number, refused)),
    }
}

fn abort_step(
    alloc: Global,
    scope: &Scope,
    number: usize,
    test: &Word,
    code: i64,
) -> Result<Step, SqlRefusal<BodyFault>>
    requires { IsTrue (scope_narrow scope.now) }
    ensures { Answers (OfText number (λ c. AbortStep c code) (ConditionSays scope.now test.now)) result }
{
    match condition_of(alloc, scope, test) {
        Ok(test) => Ok(Step::AbortIf { test, code }),
        Err(refused) => Err(refusal_at(number, refused)),
    }
}

fn return_step(
    alloc: Global,
    scope: &Scope,
    number: usize,
    query: &Word,
) -> Result<Step, SqlRefusal<BodyFault>>
    requires { IsTrue (scope_narrow scope.now) }
    ensures { Answers (OfText number Return (QuerySays scope.now query.now)) result }
{
    match query_of(alloc, scope, query) {
        Ok(query) => Ok(Step::Return(query)),
        Err(refused) => Err(refusal_at(number, refused)),
    }
}

// ---- inside a `for_each`

/// The steps inside a `for_each` of a body, over the batch of this stream.
#[derive(Drop)]
struct InnerSteps<'a> {
    body: &'a Body<'a>,
    stream: &'a Word,
}

fn inner_sql(
    alloc: Global,
    scope: &Scope,
    number: usize,
    text: &Word,
) -> Result<Inner, SqlRefusal<BodyFault>>
    requires { IsTrue (scope_narrow scope.now) }
    ensures { Answers (OfText number InnerSql (StatementSays scope.now text.now)) result }
{
    match statement_of(alloc, scope, text) {
        Ok(statement) => Ok(Inner::Sql(statement)),
        Err(refused) => Err(refusal_at(number, refused)),
    }
}

fn inner_abort(
    alloc: Global,
    scope: &Scope,
    number: usize,
    test: &Word,
    code: i64,
) -> Result<Inner, SqlRefusal<BodyFault>>
    requires { IsTrue (scope_narrow scope.now) }
    ensures { Answers (OfText number (λ c. InnerAbort c code) (ConditionSays scope.now test.now)) result }
{
    match condition_of(alloc, scope, test) {
        Ok(test) => Ok(Inner::AbortIf { test, code }),
        Err(refused) => Err(refusal_at(number, refused)),
    }
}

impl<'a> ItemReader for InnerSteps<'a> {
    type Item = InnerOutline;

    type Read = Inner;

    type Fault = BodyFault;

    ghost size = { λ _. 1 };

    ghost sees = { λ i. step_scope i.body.now.names.now.outline.now i.body.now.procedure.now (columns_of_stream i.body.now.names.now.outline.now i.stream.now) None };

    ghost reads = { λ i. InnerReads i.body.now.names.now.outline.now i.body.now.procedure.now (columns_of_stream i.body.now.names.now.outline.now i.stream.now) };

    fn size(&self, _item: &InnerOutline) -> usize {
        1
    }

    fn read(
        &self,
        alloc: Global,
        scope: &mut Scope,
        number: usize,
        item: &InnerOutline,
    ) -> Result<Inner, SqlRefusal<BodyFault>> {
        match item {
            InnerOutline::Sql(text) => inner_sql(alloc, scope, number, text),
            InnerOutline::AbortIf { test, code } => inner_abort(alloc, scope, number, test, *code),
        }
    }
}

// ---- `return_all`

fn column_items(alloc: Global, count: usize) -> Result<Seq<SelectItem>, NoMemory>
    requires { count ≤ 256 }
    ensures { IfOk result (λ items. items ≡ map column_item (range_with_len 0 count)) }
{
    let mut items = Seq::new(alloc);
    for column in 0..count {
        let column = Expr::Col {
            source: 0,
            column: column as u8,
        };
        items.push(SelectItem::Plain(column))?;
    }
    Ok(items)
}

fn whole_table(alloc: Global, table: u16, columns: &[Column]) -> Result<Query, NoMemory>
    requires { length columns.now ≤ 256 }
    ensures { IfOk result (λ query. query ≡ whole_table table columns.now) }
{
    let items = column_items(alloc, columns.len())?;
    Ok(Query {
        items,
        from: SourceId::Table(table),
        joined: None,
        test: None,
        groups: Seq::new(alloc),
        order: Seq::new(alloc),
        limit: None,
    })
}

// ---- steps

impl<'a> Body<'a> {
    /// A `return_all` step: the query of all columns of a table.
    fn return_all_step(&self, alloc: Global, table: &Word) -> Result<Step, SqlRefusal<BodyFault>>
        ensures { Answers (StepReads self.now.names.now.outline.now self.now.procedure.now 0 (outline.ReturnAll table.now)) result }
    {
        let number = self.names.table_number(table);
        let columns = self.names.table_columns(table);
        let query = whole_table(alloc, number, columns)?;
        Ok(Step::Return(query))
    }

    fn for_each_step(
        &self,
        alloc: Global,
        scope: &mut Scope,
        number: usize,
        stream: &Word,
        body: &[InnerOutline],
    ) -> Result<Step, SqlRefusal<BodyFault>>
        requires sees { scope.old ≡ step_scope self.now.names.now.outline.now self.now.procedure.now self.now.procedure.now.args None }
        requires narrow { IsTrue (scope_narrow scope.old) }
        ensures unchanged { OnOk result (scope.new ≡ scope.old) }
        ensures read { Answers (StepReads self.now.names.now.outline.now self.now.procedure.now number (outline.ForEach stream.now body.now)) result }
    {
        let input = self.input(stream);
        // Neither comes about: inputs that are known and no duplicates are at most as many as streams, and no memory holds so
        // many steps.
        if input > 65_535 || number == usize::MAX {
            return Err(SqlRefusal::NoMemory);
        }
        let columns = self.names.columns_of_stream(alloc, stream)?;
        // Inside, the parameters are the columns of the stream in place of the arguments.
        let args = std::mem::replace(&mut scope.params, columns);
        let inner = InnerSteps { body: self, stream };
        let body = read_in_order(alloc, &inner, scope, number + 1, body)?;
        scope.params = args;
        Ok(Step::ForEach {
            input: input as u16,
            body,
        })
    }

    fn emit_step(
        &self,
        alloc: Global,
        scope: &mut Scope,
        number: usize,
        stream: &Word,
        query: &Word,
    ) -> Result<Step, SqlRefusal<BodyFault>>
        requires sees { scope.old ≡ step_scope self.now.names.now.outline.now self.now.procedure.now self.now.procedure.now.args None }
        requires narrow { IsTrue (scope_narrow scope.old) }
        ensures unchanged { OnOk result (scope.new ≡ scope.old) }
        ensures read { Answers (StepReads self.now.names.now.outline.now self.now.procedure.now number (outline.Emit stream.now query.now)) result }
    {
        let columns = self.names.columns_of_stream(alloc, stream)?;
        // For this query alone: no other text of a body has rows that go to a stream.
        scope.out = Some(columns);
        let query = query_of(alloc, scope, query);
        scope.out = None;
        match query {
            Ok(query) => Ok(Step::Emit {
                stream: self.names.stream_number(stream),
                query,
            }),
            Err(refused) => Err(refusal_at(number, refused)),
        }
    }
}

impl<'a> ItemReader for Body<'a> {
    type Item = StepOutline;

    type Read = Step;

    type Fault = BodyFault;

    ghost size = { step_count };

    ghost sees = { λ b. step_scope b.names.now.outline.now b.procedure.now b.procedure.now.args None };

    ghost reads = { λ b. StepReads b.names.now.outline.now b.procedure.now };

    fn size(&self, item: &StepOutline) -> usize {
        match item {
            StepOutline::ForEach { body, .. } => 1 + body.as_slice().len(),
            _ => 1,
        }
    }

    fn read(
        &self,
        alloc: Global,
        scope: &mut Scope,
        number: usize,
        item: &StepOutline,
    ) -> Result<Step, SqlRefusal<BodyFault>> {
        match item {
            StepOutline::Insert { table, values } => {
                self.insert_step(alloc, number, table, values.as_slice())
            }
            StepOutline::ReturnAll(table) => self.return_all_step(alloc, table),
            StepOutline::Sql(text) => sql_step(alloc, scope, number, text),
            StepOutline::AbortIf { test, code } => abort_step(alloc, scope, number, test, *code),
            StepOutline::ForEach { stream, body } => {
                self.for_each_step(alloc, scope, number, stream, body.as_slice())
            }
            StepOutline::Emit { stream, query } => {
                self.emit_step(alloc, scope, number, stream, query)
            }
            StepOutline::Return(query) => return_step(alloc, scope, number, query),
        }
    }
}

//! Triggers.

ghost use Rattle.std.specs.Prelude.{◌≡◌, OnOk};
ghost use Rattle.ss_catalog_resolve.specs.Numbered.{sections_of, on_of};
ghost use Rattle.ss_sql_type.specs.Queries.{scope_narrow};
ghost use Rattle.ss_catalog_resolve.specs.Answers.{Answers};
ghost use Rattle.ss_catalog_resolve.specs.InOrder.{InOrder};
ghost use Rattle.ss_catalog_resolve.specs.Scopes.{shared_scope, trigger_scope};
ghost use Rattle.ss_catalog_resolve.specs.Bodies.{StatementReads, TriggerReads};

use crate::fault::{BodyFault, SqlRefusal, SqlSite};
use crate::in_order::{ItemReader, read_in_order};
use crate::outline_index::OutlineIndex;
use crate::refusals::{body_refusal, refusal_at};
use crate::scopes::{enter_trigger, leave};
use crate::texts::statement_of;
use ss_catalog_json::Word;
use ss_catalog_outline::TriggerOutline;
use ss_model::{On, TriggerDef};
use ss_sql_trees::Statement;
use ss_sql_type::Scope;
use ss_value::Seq;
use std::alloc::Global;

/// The statements of a trigger.
#[derive(Drop)]
struct Statements<'a> {
    names: &'a OutlineIndex<'a>,
    trigger: &'a TriggerOutline,
}

impl<'a> ItemReader for Statements<'a> {
    type Item = Word;

    type Read = Statement;

    type Fault = BodyFault;

    ghost size = { λ _. 1 };

    ghost sees = { λ s. trigger_scope (sections_of s.names.now.outline.now) (on_of s.names.now.outline.now s.trigger.now.on) };

    ghost reads = { λ s. StatementReads s.names.now.outline.now s.trigger.now };

    fn size(&self, _item: &Word) -> usize {
        1
    }

    fn read(
        &self,
        alloc: Global,
        scope: &mut Scope,
        number: usize,
        item: &Word,
    ) -> Result<Statement, SqlRefusal<BodyFault>> {
        match statement_of(alloc, scope, item) {
            Ok(statement) => Ok(statement),
            Err(refused) => Err(refusal_at(number, refused)),
        }
    }
}

impl<'a> OutlineIndex<'a> {
    /// The statements of a trigger.
    fn statements_of(
        &self,
        alloc: Global,
        scope: &mut Scope,
        trigger: &TriggerOutline,
        on: On,
    ) -> Result<Seq<Statement>, SqlRefusal<BodyFault>>
        requires on { on ≡ on_of self.now.outline.now trigger.now.on }
        requires sees { scope.old ≡ shared_scope (sections_of self.now.outline.now) }
        ensures unchanged { OnOk result (scope.new ≡ scope.old) }
        ensures read { Answers (InOrder (λ s. 1) (StatementReads self.now.outline.now trigger.now) 0 trigger.now.statements) result }
    {
        // An error ends the whole reading, so the scope is restored only where all statements were read.
        let shared = scope.sources.len();
        enter_trigger(alloc, scope, self.outline, on)?;
        let reads = Statements {
            names: self,
            trigger,
        };
        let statements = read_in_order(alloc, &reads, scope, 0, trigger.statements.as_slice())?;
        leave(alloc, scope, shared);
        Ok(statements)
    }
}

/// The triggers of an outline.
#[derive(Drop)]
struct Triggers<'a> {
    names: &'a OutlineIndex<'a>,
}

impl<'a> ItemReader for Triggers<'a> {
    type Item = TriggerOutline;

    type Read = TriggerDef;

    type Fault = SqlSite;

    ghost size = { λ _. 1 };

    ghost sees = { λ t. shared_scope (sections_of t.names.now.outline.now) };

    ghost reads = { λ t. TriggerReads t.names.now.outline.now };

    fn size(&self, _item: &TriggerOutline) -> usize {
        1
    }

    fn read(
        &self,
        alloc: Global,
        scope: &mut Scope,
        _number: usize,
        item: &TriggerOutline,
    ) -> Result<TriggerDef, SqlRefusal<SqlSite>> {
        let on = self.names.on_of(&item.on);
        match self.names.statements_of(alloc, scope, item, on) {
            Ok(statements) => {
                let name = item.name.copy(alloc)?;
                Ok(TriggerDef {
                    name,
                    on,
                    statements,
                })
            }
            Err(refused) => Err(body_refusal(alloc, &item.name, refused)),
        }
    }
}

impl<'a> OutlineIndex<'a> {
    /// The triggers of the outline.
    pub fn triggers(
        &self,
        alloc: Global,
        scope: &mut Scope,
    ) -> Result<Seq<TriggerDef>, SqlRefusal<SqlSite>>
        requires { scope.old ≡ shared_scope (sections_of self.now.outline.now) }
        ensures unchanged { OnOk result (scope.new ≡ scope.old) }
        ensures read { Answers (InOrder (λ t. 1) (TriggerReads self.now.outline.now) 0 self.now.outline.now.triggers) result }
    {
        let reads = Triggers { names: &*self };
        read_in_order(alloc, &reads, scope, 0, self.outline.triggers.as_slice())
    }
}

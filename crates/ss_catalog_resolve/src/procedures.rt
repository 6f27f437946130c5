//! Procedures.

ghost use Rattle.std.specs.Prelude.{◌≡◌, IsTrue, IfOk, OnOk};
ghost use Rattle.ss_catalog_outline.specs.Limits.{step_count};
ghost use Rattle.ss_catalog_resolve.specs.Numbered.{sections_of, inputs_of};
ghost use Rattle.ss_sql_type.specs.Queries.{is_short, scope_narrow};
ghost use Rattle.ss_catalog_resolve.specs.Answers.{Answers};
ghost use Rattle.ss_catalog_resolve.specs.InOrder.{InOrder};
ghost use Rattle.ss_catalog_resolve.specs.Scopes.{shared_scope};
ghost use Rattle.ss_catalog_resolve.specs.Steps.{StepReads};
ghost use Rattle.ss_catalog_resolve.specs.Bodies.{procedure_with, ProcedureReads};

use crate::fault::{BodyFault, SqlRefusal, SqlSite};
use crate::in_order::{ItemReader, read_in_order};
use crate::insert_steps::Body;
use crate::outline_index::OutlineIndex;
use crate::references::touch_of;
use crate::refusals::body_refusal;
use crate::scopes::{enter_procedure, leave};
use ss_catalog_outline::ProcedureOutline;
use ss_model::{Procedure, Step};
use ss_sql_type::Scope;
use ss_value::{Copies, NoMemory, Seq};
use std::alloc::Global;

/// The procedures of an outline.
#[derive(Drop)]
struct Procedures<'a> {
    names: &'a OutlineIndex<'a>,
}

impl<'a> Body<'a> {
    /// The steps of a procedure with these inputs.
    fn steps(
        &self,
        alloc: Global,
        scope: &mut Scope,
        inputs: &[u16],
    ) -> Result<Seq<Step>, SqlRefusal<BodyFault>>
        requires inputs { inputs.now ≡ inputs_of self.now.names.now.outline.now self.now.procedure.now }
        requires sees { scope.old ≡ shared_scope (sections_of self.now.names.now.outline.now) }
        ensures unchanged { OnOk result (scope.new ≡ scope.old) }
        ensures read { Answers (InOrder step_count (StepReads self.now.names.now.outline.now self.now.procedure.now) 0 self.now.procedure.now.body) result }
    {
        // An error ends the whole reading, so the scope is restored only where all steps were read.
        let shared = scope.sources.len();
        let procedure = self.procedure;
        enter_procedure(alloc, scope, self.names.outline, inputs, &procedure.args)?;
        let steps = read_in_order(alloc, self, scope, 0, procedure.body.as_slice())?;
        leave(alloc, scope, shared);
        Ok(steps)
    }
}

impl<'a> OutlineIndex<'a> {
    /// The steps of a procedure with these inputs.
    fn steps_of(
        &self,
        alloc: Global,
        scope: &mut Scope,
        procedure: &ProcedureOutline,
        inputs: &[u16],
    ) -> Result<Seq<Step>, SqlRefusal<BodyFault>>
        requires inputs { inputs.now ≡ inputs_of self.now.outline.now procedure.now }
        requires short { IsTrue (is_short procedure.now.args) }
        requires sees { scope.old ≡ shared_scope (sections_of self.now.outline.now) }
        ensures unchanged { OnOk result (scope.new ≡ scope.old) }
        ensures read { Answers (InOrder step_count (StepReads self.now.outline.now procedure.now) 0 procedure.now.body) result }
    {
        // Indexed once for all steps of the body.
        let body = Body::new(alloc, self, procedure)?;
        body.steps(alloc, scope, inputs)
    }

    /// A procedure with these inputs and steps.
    fn procedure_with(
        &self,
        alloc: Global,
        procedure: &ProcedureOutline,
        inputs: Seq<u16>,
        body: Seq<Step>,
    ) -> Result<Procedure, NoMemory>
        requires inputs { inputs ≡ inputs_of self.now.outline.now procedure.now }
        requires short { IsTrue (is_short procedure.now.args) }
        ensures { IfOk result (λ made. made ≡ procedure_with self.now.outline.now procedure.now body) }
    {
        let name = procedure.name.copy(alloc)?;
        let args = procedure.args.duplicate(alloc)?;
        let touch = touch_of(alloc, procedure.args.as_slice(), &procedure.touch)?;
        Ok(Procedure {
            name,
            kind: procedure.kind,
            args,
            inputs,
            inner: Seq::new(alloc),
            touch,
            body,
        })
    }
}

impl<'a> ItemReader for Procedures<'a> {
    type Item = ProcedureOutline;

    type Read = Procedure;

    type Fault = SqlSite;

    ghost size = { λ _. 1 };

    ghost sees = { λ p. shared_scope (sections_of p.names.now.outline.now) };

    ghost reads = { λ p. ProcedureReads p.names.now.outline.now };

    ghost takes = { λ _ p. IsTrue (is_short p.args) };

    fn size(&self, _item: &ProcedureOutline) -> usize {
        1
    }

    fn read(
        &self,
        alloc: Global,
        scope: &mut Scope,
        _number: usize,
        item: &ProcedureOutline,
    ) -> Result<Procedure, SqlRefusal<SqlSite>> {
        let inputs = self.names.inputs_of(alloc, item)?;
        match self.names.steps_of(alloc, scope, item, inputs.as_slice()) {
            Ok(steps) => {
                let procedure = self.names.procedure_with(alloc, item, inputs, steps)?;
                Ok(procedure)
            }
            Err(refused) => Err(body_refusal(alloc, &item.name, refused)),
        }
    }
}

impl<'a> OutlineIndex<'a> {
    /// The procedures of the outline.
    pub fn procedures(
        &self,
        alloc: Global,
        scope: &mut Scope,
    ) -> Result<Seq<Procedure>, SqlRefusal<SqlSite>>
        requires { scope.old ≡ shared_scope (sections_of self.now.outline.now) }
        ensures unchanged { OnOk result (scope.new ≡ scope.old) }
        ensures read { Answers (InOrder (λ p. 1) (ProcedureReads self.now.outline.now) 0 self.now.outline.now.procedures) result }
    {
        let reads = Procedures { names: &*self };
        read_in_order(alloc, &reads, scope, 0, self.outline.procedures.as_slice())
    }
}

// What is known of the locals where a walk stands, and how its ways part and meet.

ghost use Rattle.std.specs.Prelude.{◌≡◌, ◌<◌, ◌≤◌, true, false, None, Some, length, IfOk, OnOk};
ghost use Rattle.std.specs.List.{All};
ghost use Rattle.ckc_core.specs.Core.{expression as expression_of, statement as statement_of};
ghost use Rattle.bounds_flow.specs.Flows.{at_head, in_bundle};
ghost use Rattle.region_typing_rules.specs.Readings.{told as told_of};
ghost use Rattle.region_typing_rules.specs.Knowing.{assigned_by, with_way as with_way_of, knowing, when, cut as cut_of, way_out as way_out_of, broken, continued, with_others};
ghost use Rattle.region_typing_rules.specs.Statements.{meeting};
ghost use Rattle.region_typing_scope.specs.Answering.{Answers};
ghost use Rattle.region_typing_scope.specs.Settlings.{answered, settled_at, settled_scope};
ghost use Rattle.region_typing_scope.specs.Tracked.{HasVars};
ghost use Rattle.region_typing_scope.specs.Views.{scope as scope_of};

use crate::refusals::{CheckError, refusal};
use crate::scope::{Scope, Ways};
use bounds_flow::flow::Flow;
use bounds_flow::steps::Settled;
use ckc_core::program::{Expr, Stmt};
use ckc_text::code::Code;
use ckc_text::fault::NoMemory;
use ckc_text::place::Span;
use region_typing_flow::conditions::told;
use region_typing_flow::steps;
use std::mem;

// A way more meets those that are there.
fn add_way(way: Flow, ways: &mut Option<Flow>) -> Result<(), NoMemory>
    requires { HasVars way.vars ways.old }
    ensures known { OnOk result (ways.new ≡ Some (with_way_of way ways.old)) }
    ensures alike { HasVars way.vars ways.new }
{
    match ways {
        None => {
            *ways = Some(way);
            Ok(())
        }
        Some(before) => before.join(&way),
    }
}

// A way meets others, if there are some.
fn meet_others(way: &mut Flow, others: &Option<Flow>) -> Result<(), NoMemory>
    requires { HasVars way.old.vars others.now }
    ensures known { OnOk result (way.new ≡ with_others others.now way.old) }
    ensures size { way.new.vars ≡ way.old.vars }
{
    match others {
        None => Ok(()),
        Some(others) => way.join(others),
    }
}

// What the answer of a settling says of the program.
fn settled(answer: &Settled, span: Span) -> Result<(), CheckError>
    ensures { Answers (λ x. x) (answered answer.now span) result }
{
    match answer {
        Settled::Kept => Ok(()),
        Settled::Lost(_) => Err(refusal(Code::E20, span)),
        Settled::Unproved(_, _) => Err(refusal(Code::E17, span)),
    }
}

impl Scope {
    /// Goes the way on which a condition came out true, and gives what is known on the other one.
    pub fn part(&mut self, condition: &Expr) -> Result<Flow, NoMemory>
        ensures known { OnOk result (scope_of self.new ≡ when (expression_of condition.now) true (scope_of self.old)) }
        ensures other { IfOk result (λ flow. flow ≡ told_of (scope_of self.old).locals (expression_of condition.now) false (scope_of self.old).flow) }
        ensures sizes { IfOk result (λ flow. flow.vars ≡ self.old.flow.vars) }
        ensures seen { OnOk result (self.new.visible.items ≡ self.old.visible.items) }
        ensures locals { OnOk result (self.new.locals.items ≡ self.old.locals.items) }
        ensures size { OnOk result (self.new.flow.vars ≡ self.old.flow.vars) }
    {
        let mut other = self.flow.copy()?;
        told(self.locals.as_slice(), condition, false, &mut other)?;
        told(self.locals.as_slice(), condition, true, &mut self.flow)?;
        Ok(other)
    }

    /// Goes on with what is known on another way, and gives what was known here.
    pub fn turn_to(&mut self, flow: Flow) -> Flow
        requires { flow.vars ≡ self.old.flow.vars }
        ensures known { scope_of self.new ≡ knowing flow (scope_of self.old) }
        ensures here { result ≡ self.old.flow }
        ensures seen { self.new.visible.items ≡ self.old.visible.items }
        ensures locals { self.new.locals.items ≡ self.old.locals.items }
        ensures size { self.new.flow.vars ≡ self.old.flow.vars }
    {
        mem::replace(&mut self.flow, flow)
    }

    /// This way meets another one.
    pub fn meet(&mut self, other: Flow) -> Result<(), NoMemory>
        requires { other.vars ≡ self.old.flow.vars }
        ensures known { OnOk result (scope_of self.new ≡ meeting other (scope_of self.old)) }
        ensures seen { OnOk result (self.new.visible.items ≡ self.old.visible.items) }
        ensures locals { OnOk result (self.new.locals.items ≡ self.old.locals.items) }
        ensures size { OnOk result (self.new.flow.vars ≡ self.old.flow.vars) }
    {
        let here = mem::replace(&mut self.flow, other);
        self.flow.join(&here)
    }

    /// A bundle begins, in which no assignment is settled.
    pub fn begin_bundle(&mut self)
        ensures known { scope_of self.new ≡ knowing (in_bundle (scope_of self.old).flow) (scope_of self.old) }
        ensures seen { self.new.visible.items ≡ self.old.visible.items }
        ensures locals { self.new.locals.items ≡ self.old.locals.items }
        ensures size { self.new.flow.vars ≡ self.old.flow.vars }
    {
        self.flow.begin_bundle();
    }

    /// An assignment that isn't settled yet.
    pub fn assign(&mut self, statement: &Stmt) -> Result<(), NoMemory>
        ensures known { OnOk result (scope_of self.new ≡ knowing (assigned_by (scope_of self.old).locals (statement_of statement.now)
            (scope_of self.old).flow) (scope_of self.old)) }
        ensures seen { OnOk result (self.new.visible.items ≡ self.old.visible.items) }
        ensures locals { OnOk result (self.new.locals.items ≡ self.old.locals.items) }
        ensures size { OnOk result (self.new.flow.vars ≡ self.old.flow.vars) }
    {
        steps::assign(self.locals.as_slice(), statement, &mut self.flow)
    }

    /// The settling that ends a bundle, and an assignment outside of one. It may be refused at a span (E20, E17).
    pub fn end_bundle(&mut self, span: Span) -> Result<(), CheckError>
        ensures known { Answers (λ _. scope_of self.new) (settled_at span (scope_of self.old)) result }
        ensures seen { OnOk result (self.new.visible.items ≡ self.old.visible.items) }
        ensures locals { OnOk result (self.new.locals.items ≡ self.old.locals.items) }
        ensures size { OnOk result (self.new.flow.vars ≡ self.old.flow.vars) }
    {
        let answer = self.flow.settle()?;
        settled(&answer, span)
    }

    /// An assignment and its settling, which may be refused at a span (E20, E17).
    pub fn settle(&mut self, statement: &Stmt, span: Span) -> Result<(), CheckError>
        ensures known { Answers (λ _. scope_of self.new) (settled_scope (statement_of statement.now) span (scope_of self.old)) result }
        ensures seen { OnOk result (self.new.visible.items ≡ self.old.visible.items) }
        ensures size { OnOk result (self.new.flow.vars ≡ self.old.flow.vars) }
    {
        self.assign(statement)?;
        self.end_bundle(span)
    }

    /// No way leads on from here.
    pub fn cut(&mut self) -> Result<(), NoMemory>
        ensures known { OnOk result (scope_of self.new ≡ cut_of (scope_of self.old)) }
        ensures seen { OnOk result (self.new.visible.items ≡ self.old.visible.items) }
        ensures size { OnOk result (self.new.flow.vars ≡ self.old.flow.vars) }
    {
        self.flow.cut()
    }

    // What is known on a way out of the innermost loop, or on to its next turn.
    fn way_out(&self) -> Result<Flow, NoMemory>
        ensures known { IfOk result (λ flow. flow ≡ way_out_of (scope_of self.now)) }
        ensures size { IfOk result (λ flow. flow.vars ≡ self.now.flow.vars) }
    {
        let count = self.locals.len() as u32 - self.outside;
        let mut way = self.flow.copy()?;
        steps::leave(self.outside, count, &mut way)?;
        Ok(way)
    }

    /// This way leads out of the innermost loop.
    pub fn break_off(&mut self) -> Result<(), NoMemory>
        ensures known { OnOk result (scope_of self.new ≡ broken (scope_of self.old)) }
        ensures seen { OnOk result (self.new.visible.items ≡ self.old.visible.items) }
        ensures size { OnOk result (self.new.flow.vars ≡ self.old.flow.vars) }
    {
        let way = self.way_out()?;
        add_way(way, &mut self.breaks)?;
        self.flow.cut()
    }

    /// This way leads to the end of the innermost loop's body.
    pub fn go_on(&mut self) -> Result<(), NoMemory>
        ensures known { OnOk result (scope_of self.new ≡ continued (scope_of self.old)) }
        ensures seen { OnOk result (self.new.visible.items ≡ self.old.visible.items) }
        ensures size { OnOk result (self.new.flow.vars ≡ self.old.flow.vars) }
    {
        let way = self.way_out()?;
        add_way(way, &mut self.continues)?;
        self.flow.cut()
    }

    /// Enters a loop that assigns these locals, and gives what is known of the loop around.
    pub fn enter_loop(&mut self, assigned: &[u32]) -> Result<Ways, NoMemory>
        requires { All (λ x. x < self.old.flow.vars) assigned.now }
        ensures known { OnOk result (scope_of self.new ≡ record (scope_of self.old) {
          outside = length (scope_of self.old).locals;
          flow = at_head assigned.now (scope_of self.old).flow;
          breaks = None;
          continues
              = None;
        }) }
        ensures around { IfOk result (λ ways. ways ≡ record { outside = self.old.outside; breaks = self.old.breaks; continues = self.old.continues }) }
        ensures few { IfOk result (λ ways. ways.outside ≤ length self.old.locals.items) }
        ensures seen { OnOk result (self.new.visible.items ≡ self.old.visible.items) }
        ensures locals { OnOk result (self.new.locals.items ≡ self.old.locals.items) }
        ensures size { OnOk result (self.new.flow.vars ≡ self.old.flow.vars) }
    {
        self.flow.enter_loop(assigned)?;
        let breaks = mem::replace(&mut self.breaks, None);
        let continues = mem::replace(&mut self.continues, None);
        let outside = mem::replace(&mut self.outside, self.locals.len() as u32);
        Ok(Ways {
            outside,
            breaks,
            continues,
        })
    }

    /// The end of a loop's body meets its `continue`s.
    pub fn end_turn(&mut self) -> Result<(), NoMemory>
        ensures known { OnOk result (scope_of self.new ≡ knowing (with_others (scope_of self.old).continues (scope_of self.old).flow) (scope_of self.old)) }
        ensures seen { OnOk result (self.new.visible.items ≡ self.old.visible.items) }
        ensures locals { OnOk result (self.new.locals.items ≡ self.old.locals.items) }
        ensures size { OnOk result (self.new.flow.vars ≡ self.old.flow.vars) }
    {
        meet_others(&mut self.flow, &self.continues)
    }

    /// Leaves a loop: what is known where its condition came out false meets its `break`s.
    pub fn leave_loop(&mut self, over: Flow, around: Ways) -> Result<(), NoMemory>
        requires outside { around.outside ≤ length self.old.locals.items }
        requires size { over.vars ≡ self.old.flow.vars }
        requires breaks { HasVars self.old.flow.vars around.breaks }
        requires continues { HasVars self.old.flow.vars around.continues }
        ensures known { OnOk result (scope_of self.new ≡ record (scope_of self.old) {
          outside = around.outside;
          flow = with_others (scope_of self.old).breaks over;
          breaks = around.breaks;
          continues
              = around.continues;
        }) }
        ensures seen { OnOk result (self.new.visible.items ≡ self.old.visible.items) }
        ensures size { OnOk result (self.new.flow.vars ≡ self.old.flow.vars) }
    {
        let Ways {
            outside,
            breaks,
            continues,
        } = around;
        self.outside = outside;
        self.flow = over;
        self.continues = continues;
        let ended = mem::replace(&mut self.breaks, breaks);
        meet_others(&mut self.flow, &ended)
    }
}

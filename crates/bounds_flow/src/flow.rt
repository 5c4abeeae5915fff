// What the checker knows at a point of a function, and the steps that change it.

ghost use Rattle.std.specs.Prelude.{◌≡◌, ◌≤◌, ◌<◌, IfOk, OnErr, OnOk, is_some};
ghost use Rattle.std.specs.List.{All};
ghost use Rattle.subsumption.specs.Facts.{IsBelow};
ghost use Rattle.subsumption.specs.ClosedTables.{entails_terms};
ghost use Rattle.subsumption.specs.ShownTables.{is_yes};
ghost use Rattle.bounds_flow.specs.Flows.{KeepsPointers, assumed, at_entry, at_head, cut_off, entered, held_at, left, length_assigned, measured_by, met, number_assigned, in_bundle, pointer_assigned, rejoined, widened, wider};
ghost use Rattle.bounds_flow.specs.Settling.{Answers, settled_by};
ghost use Rattle.bounds_flow.specs.Conditions.{AnswersBy, AreBoundsBelow, IsFlow, IsSmall, IsSourceBelow, IsTermBelow, IsTestWithin};

use crate::changes::{Change, change_all, clear, forget_all, join_all, number_change, rejoin_all};
use crate::effects::{assign, declare, nothing};
use crate::held::Held;
use crate::lengths::{counts_from_itself, measure, variable_term, widen, with_bounds};
use crate::settling::first_unmet;
use crate::steps::{Settled, Source, Test};
use crate::tables::{assign_number, compare, kill_all, negate};
use bounds_exprs::expression::constant;
use bounds_exprs::term::{Bounds, Term};
use ckc_text::fault::NoMemory;
use std::alloc::Global;
use std::marker::Model;
use subsumption::fact::Answer;
use subsumption::facts::Facts;

/// What is known where a function has come to: facts about its `int` variables, and of each pointer its bounds in force.
#[derive(Drop)]
pub struct Flow {
    alloc: Global,
    facts: Facts,
    /// What is known of each variable as a pointer.
    held: Vec<Held>,
    /// Which `int` variables were assigned since the last settling.
    assigned: Vec<bool>,
    /// Whether it stands in a bundle.
    bundled: bool,
}

impl Model for Flow {
    ghost use Rattle.bounds_flow.specs.Flows.{Knowledge};
    ghost use Rattle.bounds_flow.specs.Conditions.{AreOfVariables};

    ghost Value = { Knowledge };

    ghost view = { λ f. record { vars = f.facts.vars; facts = f.facts.table; held = f.held.items; assigned = f.assigned.items; bundled = f.bundled } };

    ghost invariant = { λ f. AreOfVariables f.facts.vars f.held.items f.assigned.items };
}

impl Flow {
    /// Where nothing is in scope yet, for variables with the numbers below `vars`, which is at most 4,096.
    pub fn new(alloc: Global, vars: u32) -> Result<Flow, NoMemory>
        requires { vars ≤ 4096 }
        ensures { IfOk result (λ flow. flow ≡ at_entry vars) }
    {
        let facts = Facts::new(alloc, vars)?;
        let held = vec![in alloc; nothing(); vars as usize]?;
        let assigned = vec![in alloc; false; vars as usize]?;
        Ok(Flow {
            alloc,
            facts,
            held,
            assigned,
            bundled: false,
        })
    }

    /// The same once more.
    pub fn copy(&self) -> Result<Flow, NoMemory>
        ensures { IfOk result (λ flow. flow ≡ self.now) }
    {
        let facts = self.facts.copy()?;
        let held = Vec::from_slice(self.alloc, self.held.as_slice())?;
        let assigned = Vec::from_slice(self.alloc, self.assigned.as_slice())?;
        Ok(Flow {
            alloc: self.alloc,
            facts,
            held,
            assigned,
            bundled: self.bundled,
        })
    }

    /// The bounds in force; `None` exactly where there are none.
    pub fn bounds(&self, var: u32) -> Option<Bounds>
        requires { var < self.now.vars }
        ensures { result ≡ (held_at self.now.held var).bounds }
    {
        self.held[var as usize].bounds
    }

    /// How many variables there are.
    pub fn vars(&self) -> u32
        ensures { result ≡ self.now.vars }
    {
        self.facts.is_narrow();
        self.held.len() as u32
    }

    /// The bounds that are written at the declaration; `None` exactly where there are none.
    pub fn declared(&self, var: u32) -> Option<Bounds>
        requires { var < self.now.vars }
        ensures { result ≡ (held_at self.now.held var).declared }
    {
        self.held[var as usize].declared
    }

    /// Whether the pointer is known not to be null.
    pub fn not_null(&self, var: u32) -> bool
        requires { var < self.now.vars }
        ensures { result ≡ (held_at self.now.held var).known }
    {
        self.held[var as usize].known
    }

    /// Whether `a` is at most `b` wherever the facts are met.
    pub fn entails(&self, a: &Term, b: &Term) -> Result<Answer, NoMemory>
        requires a_below { IsBelow self.now.vars a.now.var }
        requires b_below { IsBelow self.now.vars b.now.var }
        ensures answers { IfOk result (AnswersBy self.now a.now b.now) }
        ensures table { IfOk result (λ answer. is_yes answer ≡ entails_terms a.now b.now self.now.facts) }
    {
        self.facts.is_narrow();
        let answer = self.facts.entails(a, b)?;
        Ok(answer)
    }

    /// The variable comes into scope, as a pointer with these bounds at its declaration, or with none.
    pub fn enter(&mut self, var: u32, declared: Option<Bounds>) -> Result<(), NoMemory>
        requires below { var < self.old.vars }
        requires bounds_below { AreBoundsBelow self.old.vars declared }
        ensures ok { OnOk result (self.new ≡ entered var declared self.old) }
        ensures err { OnErr result (self.new ≡ self.old) }
    {
        self.held[var as usize] = declare(declared);
        Ok(())
    }

    /// The variable leaves its scope.
    pub fn leave(&mut self, var: u32) -> Result<(), NoMemory>
        requires { var < self.old.vars }
        ensures ok { OnOk result (self.new ≡ left var self.old) }
        ensures err { OnErr result (self.new ≡ self.old) }
    {
        self.facts.kill(var)?;
        change_all(&mut self.held, &Change::Leave(var), &self.assigned);
        self.held[var as usize] = nothing();
        self.assigned[var as usize] = false;
        Ok(())
    }

    /// The `int` variable is assigned a term, or something that has none. Where no memory is found, the pointers and what
    /// was assigned are as before, and the facts are some of those of the steps between.
    pub fn assign_int(&mut self, var: u32, to: Option<Term>) -> Result<(), NoMemory>
        requires below { var < self.old.vars }
        requires to_below { IsTermBelow self.old.vars to }
        ensures ok { OnOk result (self.new ≡ number_assigned var to self.old) }
        ensures err { OnErr result (KeepsPointers self.old self.new) }
    {
        assign_number(&mut self.facts, var, to)?;
        self.assigned[var as usize] = true;
        change_all(&mut self.held, &number_change(var, to), &self.assigned);
        Ok(())
    }

    /// The pointer is assigned. `moved` is the constant where it is assigned itself plus a constant, and `not_null` whether
    /// it is known not to be null then.
    pub fn assign_pointer(
        &mut self,
        var: u32,
        from: &Source,
        moved: Option<i64>,
        not_null: bool,
    ) -> Result<(), NoMemory>
        requires below { var < self.old.vars }
        requires from_below { IsSourceBelow self.old.vars from.now }
        requires small { IsSmall moved }
        ensures ok { OnOk result (self.new ≡ pointer_assigned var from.now moved not_null self.old) }
        ensures err { OnErr result (self.new ≡ self.old) }
    {
        let own = assign(&self.held[var as usize], var, from, moved, not_null);
        change_all(&mut self.held, &Change::Base(var, moved), &self.assigned);
        self.held[var as usize] = own;
        Ok(())
    }

    /// The test came out so. Where no memory is found, the pointers and what was assigned are as before.
    pub fn assume(&mut self, test: &Test, truth: bool) -> Result<(), NoMemory>
        requires { IsTestWithin self.old.vars test.now }
        ensures ok { OnOk result (self.new ≡ assumed test.now truth self.old) }
        ensures err { OnErr result (KeepsPointers self.old self.new) }
    {
        match test {
            Test::NotNull { var } => {
                if truth {
                    self.held[*var as usize].known = true;
                }
            }
            Test::Compare { how, left, right } => {
                let how = if truth { *how } else { negate(*how) };
                compare(&mut self.facts, how, *left, *right)?;
            }
        }
        Ok(())
    }

    /// The element of a null-terminated pointer at the index isn't zero. Whether that raised the upper end of its bounds in force
    /// by one: they count from the pointer itself, and end at the index.
    pub fn widen(&mut self, var: u32, index: &Term) -> Result<bool, NoMemory>
        requires below { var < self.old.vars }
        requires index_below { IsBelow self.old.vars index.now.var }
        ensures ok { OnOk result (self.new ≡ widened var index.now self.old) }
        ensures raised { IfOk result (λ raised. raised ≡ is_some (wider index.now self.old.facts (held_at self.old.held var).bounds)) }
        ensures err { OnErr result (self.new ≡ self.old) }
    {
        let before = self.held[var as usize];
        let after = widen(&self.facts, index, before.bounds)?;
        self.held[var as usize] = with_bounds(&before, after);
        Ok(after.is_some())
    }

    /// The `int` variable is assigned the length of what a null-terminated pointer leads to. Where no memory is found, the flow
    /// is one of those between.
    pub fn strlen(&mut self, int_var: u32, pointer: u32) -> Result<(), NoMemory>
        requires below { int_var < self.old.vars }
        requires pointer_below { pointer < self.old.vars }
        ensures ok { OnOk result (self.new ≡ length_assigned int_var pointer self.old) }
        ensures err { OnErr result (self.new.vars ≡ self.old.vars) }
    {
        if !counts_from_itself(self.held[pointer as usize].bounds) {
            return self.assign_int(int_var, None);
        }
        self.assign_int(int_var, None)?;
        self.measure(int_var, pointer)
    }

    // The variable holds the length of what a pointer leads to whose bounds count from itself.
    fn measure(&mut self, var: u32, pointer: u32) -> Result<(), NoMemory>
        requires below { var < self.old.vars }
        requires pointer_below { pointer < self.old.vars }
        ensures ok { OnOk result (self.new ≡ measured_by var pointer self.old) }
        ensures err { OnErr result (KeepsPointers self.old self.new) }
    {
        self.facts.add(constant(0), variable_term(var))?;
        let own = measure(&self.facts, var, &self.held[pointer as usize])?;
        self.held[pointer as usize] = own;
        Ok(())
    }

    /// A loop begins that assigns these variables. Where no memory is found, the pointers and what was assigned are as
    /// before, and nothing is known of some of these variables.
    pub fn enter_loop(&mut self, assigned: &[u32]) -> Result<(), NoMemory>
        requires { All (λ x. x < self.old.vars) assigned.now }
        ensures ok { OnOk result (self.new ≡ at_head assigned.now self.old) }
        ensures err { OnErr result (KeepsPointers self.old self.new) }
    {
        kill_all(&mut self.facts, assigned)?;
        change_all(&mut self.held, &Change::Head, &self.assigned);
        forget_all(&mut self.held, assigned);
        Ok(())
    }

    /// No way leads on from here: every fact is entailed.
    pub fn cut(&mut self) -> Result<(), NoMemory>
        ensures ok { OnOk result (self.new ≡ cut_off self.old) }
        ensures err { OnErr result (self.new ≡ self.old) }
    {
        self.facts.is_narrow();
        self.facts.add(constant(1), constant(0))?;
        Ok(())
    }

    /// Two ways meet.
    pub fn join(&mut self, other: &Flow) -> Result<(), NoMemory>
        requires { other.now.vars ≡ self.old.vars }
        ensures ok { OnOk result (self.new ≡ met self.old other.now) }
        ensures err { OnErr result (self.new ≡ self.old) }
    {
        self.facts.join(&other.facts)?;
        join_all(&mut self.held, &other.held);
        Ok(())
    }

    /// Two ways through one expression meet, before which so much was known. In a bundle, pointers of which the two know
    /// different bounds have those from before, and else their declared ones, as where two ways meet between statements.
    pub fn rejoin(&mut self, other: &Flow, before: &Flow) -> Result<(), NoMemory>
        requires other { other.now.vars ≡ self.old.vars }
        requires before { before.now.vars ≡ self.old.vars }
        ensures ok { OnOk result (self.new ≡ rejoined before.now self.old other.now) }
        ensures err { OnErr result (self.new ≡ self.old) }
    {
        if !before.bundled {
            return self.join(other);
        }
        self.facts.join(&other.facts)?;
        rejoin_all(&mut self.held, &other.held, &before.held);
        Ok(())
    }

    /// A bundle begins: its end alone settles.
    pub fn begin_bundle(&mut self)
        ensures { self.new ≡ in_bundle self.old }
    {
        self.bundled = true;
    }

    /// Whether it stands in a bundle.
    pub fn is_bundled(&self) -> bool
        ensures { result ≡ self.now.bundled }
    {
        self.bundled
    }

    /// Whether all pointers meet their declared bounds, in order. Where they do, those that were assigned, moved or lost
    /// have their declared bounds afterwards, no variable is assigned any more, and a bundle has ended. Else the flow is as
    /// before.
    pub fn settle(&mut self) -> Result<Settled, NoMemory>
        ensures answers { IfOk result (Answers self.old.vars self.old.facts self.old.held) }
        ensures after { IfOk result (λ answer. self.new ≡ settled_by answer self.old) }
        ensures err { OnErr result (self.new ≡ self.old) }
    {
        self.facts.is_narrow();
        let answer = first_unmet(&self.facts, &self.held)?;
        if let Settled::Kept = answer {
            change_all(&mut self.held, &Change::Settle, &self.assigned);
            clear(&mut self.assigned);
            self.bundled = false;
        }
        Ok(answer)
    }

    /// What holds of each flow: at most 4,096 variables, closed facts, and an item for each variable, with bounds that speak
    /// of these variables alone.
    pub fn is_flow(&self)
        ensures { IsFlow self.now }
    {
        self.facts.is_narrow();
        let _ = &self.held;
    }
}

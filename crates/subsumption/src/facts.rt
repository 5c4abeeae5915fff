// A table of facts, kept closed.

ghost use Rattle.std.specs.Prelude.{◌≡◌, ◌≤◌, ◌<◌, ◌^◌, ◌++◌, ◌∷◌, [], IfOk, OnOk, OnErr};
ghost use Rattle.std.specs.List.{All, Contains};
ghost use Rattle.bounds_exprs.specs.declared.term.Term.{Term};
ghost use Rattle.subsumption.specs.Graphs.{IsWithin};
ghost use Rattle.subsumption.specs.Shifts.{moved};
ghost use Rattle.subsumption.specs.Facts.{BothEntail, Entails, HasOneEach, IsAbout, IsBelow, IsWide, fact_of};
ghost use Rattle.subsumption.specs.ClosedTables.{Contradiction, entails_terms, joined, no_facts, shifted, with_fact, without};
ghost use Rattle.subsumption.specs.ShownTables.{Shows, is_yes};
ghost use Rattle.subsumption.specs.Tables.{AnswersTerms, Becomes, FollowsWithout, Joins, Table};

use crate::answers::answer;
use crate::fact::{Answer, Fact, Path};
use crate::matrix::{Change, Matrix};
use crate::relaxation::node;
use crate::walks::{contradiction, contradicts};
use bounds_exprs::term::Term;
use ckc_text::fault::NoMemory;
use std::alloc::Global;
use std::marker::Model;

/// Facts about variables with the numbers below `vars`.
#[derive(Drop)]
pub struct Facts {
    alloc: Global,
    vars: u32,
    /// Whether no numbers meet the facts.
    broken: bool,
    /// The facts of the contradiction, if there is one. Their room is taken when the table is made.
    path: Vec<Fact>,
    /// The least constants of zero and all variables.
    matrix: Matrix,
}

impl Model for Facts {
    ghost use Rattle.subsumption.specs.Tables.{Table};
    ghost use Rattle.subsumption.specs.MatrixPaths.{IsKeptClosed, facts_by, table_by};

    ghost Value = { Table };

    ghost view = { λ f. record { vars = f.vars; facts = facts_by f.broken f.path.items f.matrix; table = table_by f.broken f.matrix } };

    ghost invariant = { λ f. IsKeptClosed f.vars f.broken f.path.items f.matrix };
}

/// The fact that the one term is at most the other.
fn fact_from(a: &Term, b: &Term) -> Fact
    ensures value { result ≡ fact_of a.now b.now }
    ensures small { IsWithin (2 ^ 66) result.plus }
{
    Fact {
        left: a.var,
        right: b.var,
        plus: b.plus as i128 - a.plus as i128,
    }
}

impl Facts {
    /// No facts about so many variables, at most 4,096.
    pub fn new(alloc: Global, vars: u32) -> Result<Facts, NoMemory>
        requires { vars ≤ 4096 }
        ensures { IfOk result (λ table. table ≡ record { vars = vars; facts = []; table = no_facts vars }) }
    {
        let path = Vec::with_capacity(alloc, vars as usize + 1)?;
        let matrix = Matrix::new(alloc, vars as usize + 1)?;
        Ok(Facts {
            alloc,
            vars,
            broken: false,
            path,
            matrix,
        })
    }

    /// The same facts once more.
    pub fn copy(&self) -> Result<Facts, NoMemory>
        ensures { IfOk result (λ table. table ≡ self.now) }
    {
        let mut path = Vec::with_capacity(self.alloc, self.vars as usize + 1)?;
        path.extend_from_slice(self.path.as_slice())?;
        let matrix = self.matrix.copy(self.alloc)?;
        Ok(Facts {
            alloc: self.alloc,
            vars: self.vars,
            broken: self.broken,
            path,
            matrix,
        })
    }

    /// Adds that `a` is at most `b`. No facts are left where the least constant for some two would lie outside -2^100 to
    /// 2^100. Facts that can't be met any more are kept as those that show it.
    pub fn add(&mut self, a: Term, b: Term) -> Result<(), NoMemory>
        requires a_below { IsBelow self.old.vars a.var }
        requires b_below { IsBelow self.old.vars b.var }
        ensures ok { OnOk result (Becomes self.old (Entails (self.old.facts ++ fact_of a b ∷ [])) self.new) }
        ensures table { OnOk result (self.new.table ≡ with_fact self.old.vars (fact_of a b) self.old.table) }
        ensures path { OnOk result (self.new.table ≡ Contradiction → All (Contains (self.old.facts ++ fact_of a b ∷ [])) self.new.facts) }
        ensures err { OnErr result (self.new ≡ self.old) }
    {
        if self.broken {
            return Ok(());
        }
        let fact = fact_from(&a, &b);
        if contradicts(&self.matrix, &fact) {
            contradiction(&self.matrix, &fact, &mut self.path)?;
            self.broken = true;
            return Ok(());
        }
        self.matrix
            .add(self.alloc, node(fact.left), node(fact.right), fact.plus)?;
        Ok(())
    }

    /// Whether `a` is at most `b` wherever the facts are met.
    pub fn entails(&self, a: &Term, b: &Term) -> Result<Answer, NoMemory>
        requires a_below { IsBelow self.now.vars a.now.var }
        requires b_below { IsBelow self.now.vars b.now.var }
        ensures answers { IfOk result (AnswersTerms self.now a.now b.now) }
        ensures table { IfOk result (λ answer. is_yes answer ≡ entails_terms a.now b.now self.now.table) }
    {
        let goal = fact_from(a, b);
        if self.broken {
            let path = Vec::from_slice(self.alloc, self.path.as_slice())?;
            return Ok(Answer::Yes(Path { facts: path }));
        }
        let answer = answer(self.alloc, &self.matrix, &goal)?;
        Ok(answer)
    }

    /// After `var` was assigned `var` plus `c`: entailed is what was with `var` plus `c` put for `var`.
    pub fn shift(&mut self, var: u32, c: i64) -> Result<(), NoMemory>
        requires { var < self.old.vars }
        ensures ok { OnOk result (Becomes self.old (λ goal. Entails self.old.facts (moved var c goal)) self.new) }
        ensures table { OnOk result (self.new.table ≡ shifted self.old.vars var c self.old.table) }
        ensures err { OnErr result (self.new ≡ self.old) }
    {
        if self.broken {
            return Ok(());
        }
        self.matrix
            .apply(&Change::Shift(var as usize + 1, c as i128));
        Ok(())
    }

    /// After `var` was assigned a number of which nothing is known.
    pub fn kill(&mut self, var: u32) -> Result<(), NoMemory>
        requires { var < self.old.vars }
        ensures ok { OnOk result (Becomes self.old (FollowsWithout var self.old.facts) self.new) }
        ensures table { OnOk result (self.new.table ≡ without self.old.vars var self.old.table) }
        ensures err { OnErr result (self.new ≡ self.old) }
    {
        if self.broken {
            // What can't be met can't be met without a variable either.
            return Ok(());
        }
        self.matrix.apply(&Change::Kill(var as usize + 1));
        Ok(())
    }

    /// Keeps what both entail, exactly.
    pub fn join(&mut self, other: &Facts) -> Result<(), NoMemory>
        requires { other.now.vars ≡ self.old.vars }
        ensures ok { OnOk result (Joins self.old other.now self.new) }
        ensures table { OnOk result (self.new.table ≡ joined self.old.vars self.old.table other.now.table) }
        ensures err { OnErr result (self.new ≡ self.old) }
    {
        if other.broken {
            return Ok(());
        }
        if self.broken {
            self.matrix = other.matrix.copy(self.alloc)?;
            self.broken = false;
            return Ok(());
        }
        self.matrix.join(&other.matrix);
        Ok(())
    }

    /// What holds of each table: at most 4,096 variables, facts about them alone, one at most for each two in their order,
    /// no least constant outside -2^100 to 2^100, and facts and closed table entail the same.
    pub fn is_narrow(&self)
        ensures few { self.now.vars ≤ 4096 }
        ensures about { All (IsAbout self.now.vars) self.now.facts }
        ensures one_each { HasOneEach self.now.facts }
        ensures narrow { IsWide self.now.vars (Entails self.now.facts) → ⊥ }
        ensures shows { Shows self.now.vars self.now.facts self.now.table }
    {
        let _ = &self.vars;
    }

    /// What two tables about the same variables both entail has no least constant outside -2^100 to 2^100 either. So a
    /// join is a step as the others are, and never leaves none of its facts for that.
    pub fn join_is_narrow(&self, other: &Facts)
        requires { other.now.vars ≡ self.now.vars }
        ensures narrow { IsWide self.now.vars (BothEntail self.now.facts other.now.facts) → ⊥ }
        ensures step { (after : Table) → Joins self.now other.now after → Becomes self.now (BothEntail self.now.facts other.now.facts) after }
    {
        let _ = &self.vars;
        let _ = &other.vars;
    }
}

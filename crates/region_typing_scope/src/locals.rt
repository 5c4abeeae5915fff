// The locals of the function that is walked.

ghost use Rattle.std.specs.Prelude.{◌≡◌, ◌<◌, ◌≤◌, ℕ, ◌++◌, ◌∷◌, [], None, map, reverse, take, length, nat_lt, OnOk};
ghost use Rattle.bounds_flow.specs.Conditions.{AreBoundsBelow};
ghost use Rattle.pointer_modes.specs.Types.{CType as TypeTree, ctype as ctype_of};
ghost use Rattle.region_typing_rules.specs.Scopes.{Scope as ScopeTree};
ghost use Rattle.bounds_flow.specs.Flows.{entered};
ghost use Rattle.region_typing_rules.specs.Knowing.{knowing, outside_of};
ghost use Rattle.region_typing_rules.specs.Statements.{with_local, row_type, with_array};
ghost use Rattle.region_typing_scope.specs.Declaring.{last_declared};
ghost use Rattle.region_typing_scope.specs.Views.{scope as scope_of, visible as visible_of};

use crate::bounds::row_of;
use crate::initial_cells::before_end;
use crate::scope::{BlockStart, Scope};
use crate::visible::Visible;
use bounds_exprs::term::Bounds;
use ckc_text::fault::NoMemory;
use pointer_modes::ctype::CType;
use region_typing_flow::steps;

impl Scope {
    /// Whether the function may have a local more: its flow has a variable for each, and 256 at most.
    pub fn has_room(&self) -> bool
        ensures { result ≡ nat_lt (length self.now.locals.items) self.now.flow.vars }
    {
        self.locals.len() < self.most_locals as usize
    }

    /// A local more, which is visible from now on.
    pub fn add_local(&mut self, name: usize, ctype: CType) -> Result<(), NoMemory>
        requires { length self.old.locals.items < self.old.flow.vars }
        ensures known { OnOk result (scope_of self.new ≡ with_local name (ctype_of ctype) None (scope_of self.old)) }
        ensures locals { OnOk result (self.new.locals.items ≡ self.old.locals.items ++ ctype ∷ []) }
        ensures seen { OnOk result ((v : _) × (self.new.visible.items ≡ self.old.visible.items ++ v ∷ [])) }
        ensures size { OnOk result (self.new.flow.vars ≡ self.old.flow.vars) }
    {
        let local = self.locals.len() as u32;
        self.locals.push(ctype)?;
        self.visible.push(Visible { name, local })?;
        self.flow.enter(local, None)
    }

    /// The local that was added last has these bounds at its declaration, or none.
    pub fn declare(&mut self, bounds: Option<Bounds>) -> Result<(), NoMemory>
        requires below { AreBoundsBelow self.old.flow.vars bounds }
        requires last { 0 < length self.old.locals.items }
        ensures known { OnOk result (scope_of self.new ≡ last_declared bounds (scope_of self.old)) }
        ensures added { OnOk result ((g : ScopeTree) (name : ℕ) (t : TypeTree) → scope_of self.old ≡ with_local name t None g
            → scope_of self.new ≡ with_local name t bounds g) }
        ensures seen { OnOk result (self.new.visible.items ≡ self.old.visible.items) }
        ensures locals { OnOk result (self.new.locals.items ≡ self.old.locals.items) }
        ensures size { OnOk result (self.new.flow.vars ≡ self.old.flow.vars) }
    {
        let last = self.locals.len() as u32 - 1;
        self.flow.enter(last, bounds)
    }

    /// A local array of so many elements more, which a zero ends or not, and which is visible from now on: a pointer to the
    /// first of them.
    pub fn add_array(
        &mut self,
        name: usize,
        row: CType,
        elements: u32,
        ended: bool,
    ) -> Result<(), NoMemory>
        requires room { length self.old.locals.items < self.old.flow.vars }
        ensures known { OnOk result ((t : TypeTree) → ctype_of row ≡ row_type ended t
            → scope_of self.new ≡ with_array name t elements ended (scope_of self.old)) }
        ensures seen { OnOk result ((v : _) × (self.new.visible.items ≡ self.old.visible.items ++ v ∷ [])) }
        ensures size { OnOk result (self.new.flow.vars ≡ self.old.flow.vars) }
    {
        let local = self.locals.len() as u32;
        self.add_local(name, row)?;
        self.declare(Some(row_of(before_end(ended, elements))))?;
        self.arrays.push(local)?;
        Ok(())
    }

    /// A local has these bounds at its declaration, or none.
    pub fn give_bounds(&mut self, local: u32, bounds: Option<Bounds>) -> Result<(), NoMemory>
        requires below { AreBoundsBelow self.old.flow.vars bounds }
        requires there { local < length self.old.locals.items }
        ensures known { OnOk result (scope_of self.new ≡ knowing (entered local bounds (scope_of self.old).flow) (scope_of self.old)) }
        ensures seen { OnOk result (self.new.visible.items ≡ self.old.visible.items) }
        ensures locals { OnOk result (self.new.locals.items ≡ self.old.locals.items) }
        ensures size { OnOk result (self.new.flow.vars ≡ self.old.flow.vars) }
    {
        self.flow.enter(local, bounds)
    }

    /// Where a block begins that begins here.
    pub fn block_start(&self) -> BlockStart
        ensures { result ≡ record { visible = length self.now.visible.items; locals = length self.now.locals.items; in_loop = self.now.in_loop } }
    {
        BlockStart {
            visible: self.visible.len(),
            locals: self.locals.len() as u32,
            in_loop: self.in_loop,
        }
    }

    /// Says whether a loop is around.
    pub fn set_in_loop(&mut self, in_loop: bool)
        ensures known { scope_of self.new ≡ record (scope_of self.old) { in_loop = in_loop } }
        ensures seen { self.new.visible.items ≡ self.old.visible.items }
        ensures locals { self.new.locals.items ≡ self.old.locals.items }
        ensures flow { self.new.flow ≡ self.old.flow }
    {
        self.in_loop = in_loop;
    }

    /// Leaves a block: its locals leave their scopes, the names that became visible in it are hidden, and whether a loop is
    /// around is as it was before it.
    pub fn leave(&mut self, start: BlockStart) -> Result<(), NoMemory>
        requires { start.locals ≤ length self.old.locals.items }
        ensures known { OnOk result (scope_of self.new ≡ record (scope_of self.old) {
          visible = reverse (map visible_of (take start.visible self.old.visible.items));
          in_loop = start.in_loop;
          flow = outside_of
              start.locals (scope_of self.old) (scope_of self.old).flow;
        }) }
        ensures seen { OnOk result (self.new.visible.items ≡ take start.visible self.old.visible.items) }
        ensures size { OnOk result (self.new.flow.vars ≡ self.old.flow.vars) }
    {
        let count = self.locals.len() as u32 - start.locals;
        steps::leave(start.locals, count, &mut self.flow)?;
        self.visible.truncate(start.visible);
        self.in_loop = start.in_loop;
        Ok(())
    }
}

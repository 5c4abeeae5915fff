// What becomes known at file level, and the function that is walked.

ghost use Rattle.std.specs.Prelude.{◌≡◌, ◌<◌, ◌≤◌, true, false, [], None, map, length, IfOk, OnOk};
ghost use Rattle.std.specs.List.{list_all};
ghost use Rattle.std.specs.Option.{option_map};
ghost use Rattle.pointer_modes.specs.Types.{ctype as ctype_of, member as member_of};
ghost use Rattle.pointer_modes.specs.Declaring.{with_members};
ghost use Rattle.bounds_flow.specs.Flows.{at_entry};
ghost use Rattle.region_typing_rules.specs.Types.{is_scalar};
ghost use Rattle.region_typing_rules.specs.Scopes.{function_named};
ghost use Rattle.region_typing_rules.specs.Calls.{counted, is_import as is_import_of};
ghost use Rattle.region_typing_rules.specs.Items.{nothing_known, with_variable, with_function};
ghost use Rattle.region_typing_scope.specs.Answering.{Answers};
ghost use Rattle.region_typing_scope.specs.Views.{scope as scope_of, signature};
ghost use Rattle.region_typing_scope.specs.Filling.{struct_added};

use crate::context::Context;
use crate::number_table::NumberTable;
use crate::refusals::CheckError;
use crate::scope::{Scope, Variable};
use crate::sides::is_import;
use crate::signature::Signature;
use crate::strings::Strings;
use bounds_exprs::term::Bounds;
use bounds_flow::flow::Flow;
use ckc_names_rules::given::Given;
use ckc_text::fault::NoMemory;
use ckc_text::place::Span;
use pointer_modes::ctype::{CType, Member};
use pointer_modes::structs::Structs;
use std::mem;

// One more, where a function is tainted.
fn with_tainted(f: &Signature, number: u32) -> u32
    requires { number ≤ 4096 }
    ensures { result ≡ counted (is_import_of (signature f.now)) number }
{
    if is_import(f) { number + 1 } else { number }
}

impl Scope {
    /// Nothing known, in a program with so many file-level variables, of which no more than 4,096 are counted.
    pub fn new(context: &Context, given: Given, variables: u32) -> Result<Scope, NoMemory>
        requires { variables ≤ 4096 }
        ensures { IfOk result (λ scope. scope_of scope ≡ nothing_known given variables) }
    {
        let alloc = context.alloc();
        Ok(Scope {
            given,
            tags: Vec::new(alloc),
            members: Vec::new(alloc),
            structs: Structs::new(alloc),
            functions: Vec::new(alloc),
            variables: Vec::new(alloc),
            strings: Strings::new(alloc, variables),
            locals: Vec::new(alloc),
            arrays: Vec::new(alloc),
            visible: Vec::new(alloc),
            result: None,
            result_bounds: None,
            in_loop: false,
            outside: 0,
            is_off: false,
            flow: Flow::new(alloc, 0)?,
            breaks: None,
            continues: None,
            most_locals: 0,
            tag_places: NumberTable::new(alloc),
            function_places: NumberTable::new(alloc),
            variable_places: NumberTable::new(alloc),
            tainted_counts: Vec::new(alloc),
        })
    }

    /// A struct more, whose members have these names and are still to come, and its number: E08 at the span where 4,096 are
    /// declared.
    pub fn add_struct(
        &mut self,
        tag: usize,
        names: Vec<usize>,
        tainted: bool,
        span: Span,
    ) -> Result<u32, CheckError>
        ensures { Answers (λ number. (number, scope_of self.new)) (struct_added tag names.items tainted span (scope_of self.old)) result }
    {
        self.tags.reserve(1)?;
        self.members.reserve(1)?;
        let number = self.structs.declare(tainted, span)?;
        self.tag_places.note(tag, self.tags.len())?;
        self.members.push_reserved(names);
        self.tags.push_reserved(tag);
        Ok(number)
    }

    /// Gives a struct members, in place of those that it had.
    pub fn give_members(&mut self, number: u32, members: Vec<Member>)
        requires declared { number < length self.old.structs }
        requires few { length members.items ≤ 64 }
        requires scalar { list_all (λ m. is_scalar m.ctype) (map member_of members.items) ≡ true }
        ensures { scope_of self.new ≡ record (scope_of self.old) { structs = with_members self.old.structs number (map member_of members.items) } }
    {
        self.structs.give(number, members);
    }

    /// A file-level variable more; an array has so many elements of the type, which a zero ends or not, and a pointer may have
    /// bounds that are written for it.
    pub fn add_variable(
        &mut self,
        name: usize,
        ctype: CType,
        elements: Option<u32>,
        ended: bool,
        bounds: Option<Option<Bounds>>,
    ) -> Result<(), NoMemory>
        requires { length self.old.variables.items < 4096 }
        ensures { OnOk result (scope_of self.new ≡ with_variable name (ctype_of ctype) elements ended bounds (scope_of self.old)) }
    {
        self.variables.reserve(1)?;
        self.variable_places.note(name, self.variables.len())?;
        self.variables.push_reserved(Variable {
            name,
            ctype,
            length: elements,
            ended,
            bounds,
        });
        Ok(())
    }

    /// A function more.
    pub fn add_function(&mut self, f: Signature) -> Result<(), NoMemory>
        requires few { length self.old.functions.items < 4096 }
        requires new { function_named (scope_of self.old).functions f.name ≡ None }
        ensures { OnOk result (scope_of self.new ≡ with_function None (signature f) (scope_of self.old)) }
    {
        let place = self.functions.len();
        let tainted = with_tainted(&f, self.tainted_before(place));
        self.functions.reserve(1)?;
        self.tainted_counts.reserve(1)?;
        self.function_places.note(f.name, place)?;
        self.tainted_counts.push_reserved(tainted);
        self.functions.push_reserved(f);
        Ok(())
    }

    /// Enters a function, of which no local is known yet, whose result is asked for no bounds, and whose flow has so many
    /// variables.
    pub fn enter(
        &mut self,
        context: &Context,
        returned: Option<CType>,
        variables: u32,
    ) -> Result<(), NoMemory>
        requires { variables ≤ 256 }
        ensures { OnOk result (scope_of self.new ≡ record (scope_of self.old) {
          locals = [];
          arrays = [];
          visible = [];
          result = option_map ctype_of returned;
          result_bounds = None;
          in_loop = false;
          outside
              = 0;
          flow = at_entry variables;
          breaks = None;
          continues = None;
        }) }
    {
        let flow = Flow::new(context.alloc(), variables)?;
        self.locals = Vec::new(context.alloc());
        self.arrays = Vec::new(context.alloc());
        self.visible = Vec::new(context.alloc());
        self.result = returned;
        self.result_bounds = None;
        self.in_loop = false;
        self.outside = 0;
        self.flow = flow;
        self.breaks = None;
        self.continues = None;
        self.most_locals = variables;
        Ok(())
    }

    /// Asks what is returned for these bounds, or for those of its type alone.
    pub fn ask_result(&mut self, bounds: Option<Bounds>)
        ensures { scope_of self.new ≡ record (scope_of self.old) { result_bounds = bounds } }
    {
        self.result_bounds = bounds;
    }

    /// Leaves a function, and gives the types of its locals.
    pub fn exit(&mut self, context: &Context) -> Result<Vec<CType>, NoMemory>
        ensures known { OnOk result (scope_of self.new ≡ record (scope_of self.old) {
          locals = [];
          arrays = [];
          visible = [];
          result = None;
          result_bounds = None;
          in_loop = false;
          outside = 0;
          flow = at_entry 0;
          breaks = None;
          continues = None;
        }) }
        ensures locals { IfOk result (λ locals. map ctype_of locals.items ≡ (scope_of self.old).locals) }
    {
        self.outside = 0;
        let locals = mem::replace(&mut self.locals, Vec::new(context.alloc()));
        self.enter(context, None, 0)?;
        Ok(locals)
    }
}

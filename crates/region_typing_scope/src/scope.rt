// What is known while a program is walked.

ghost use Rattle.std.specs.Prelude.{◌≡◌, ◌≤◌, true, length, map};
ghost use Rattle.std.specs.List.{list_all};
ghost use Rattle.region_typing_rules.specs.Types.{is_scalar};
ghost use Rattle.region_typing_scope.specs.Names.{are_distinct};
ghost use Rattle.region_typing_scope.specs.Signatures.{signature};
ghost use Rattle.region_typing_scope.specs.Tables.{Finds, Counts};
ghost use Rattle.region_typing_scope.specs.Tracked.{HasVars};

use crate::number_table::NumberTable;
use crate::signature::Signature;
use crate::strings::Strings;
use crate::visible::Visible;
use bounds_exprs::term::Bounds;
use bounds_flow::flow::Flow;
use ckc_names_rules::given::Given;
use pointer_modes::ctype::CType;
use pointer_modes::structs::Structs;

/// A file-level variable; an array has so many elements of the type, of which the last one may be the zero that ends it, and a
/// pointer may have bounds that are written for it, or unknown ones.
#[derive(Drop)]
pub struct Variable {
    pub name: usize,
    pub ctype: CType,
    pub length: Option<u32>,
    pub ended: bool,
    pub bounds: Option<Option<Bounds>>,
}

/// Where a block begins: how many names are visible and how many locals there are, and whether a loop is around.
#[derive(Clone, Copy)]
pub struct BlockStart {
    pub visible: usize,
    pub locals: u32,
    pub in_loop: bool,
}

/// How many locals there are outside of a loop, and what is known at its `break`s and at its `continue`s so far.
#[derive(Drop)]
pub struct Ways {
    pub outside: u32,
    pub breaks: Option<Flow>,
    pub continues: Option<Flow>,
}

/// What stands at file level, and the locals of the function that is walked. Names are their numbers, and
/// what stands at file level is found by tables of these.
#[derive(Drop)]
pub struct Scope {
    /// The names that have a meaning in every program.
    pub given: Given,
    pub tags: Vec<usize>,
    /// For each struct the names of its members.
    pub members: Vec<Vec<usize>>,
    pub structs: Structs,
    pub functions: Vec<Signature>,
    pub variables: Vec<Variable>,
    pub strings: Strings,
    pub locals: Vec<CType>,
    /// The locals of the function that are arrays.
    pub arrays: Vec<u32>,
    pub visible: Vec<Visible>,
    pub result: Option<CType>,
    /// The bounds that what is returned is asked for.
    pub result_bounds: Option<Bounds>,
    pub in_loop: bool,
    /// How many locals there are outside of the innermost loop.
    pub outside: u32,
    pub is_off: bool,
    /// What is known of the locals where the walk stands.
    pub flow: Flow,
    /// What is known at the `break`s and at the `continue`s of the innermost loop so far.
    pub breaks: Option<Flow>,
    pub continues: Option<Flow>,
    /// How many locals the function may have: as many as its flow has variables.
    pub(crate) most_locals: u32,
    pub(crate) tag_places: NumberTable,
    pub(crate) function_places: NumberTable,
    pub(crate) variable_places: NumberTable,
    /// For each function how many up to it are tainted.
    pub(crate) tainted_counts: Vec<u32>,
    ghost scalar: { list_all (λ d. list_all (λ m. is_scalar m.ctype) d.members) structs ≡ true },
    ghost few_tags: { length tags.items ≤ length structs },
    ghost few_structs: { length structs ≤ 4096 },
    ghost few_functions: { length functions.items ≤ 4096 },
    ghost distinct: { are_distinct (map signature functions.items) ≡ true },
    ghost few_variables: { length variables.items ≤ 4096 },
    ghost few_locals: { length locals.items ≤ flow.vars },
    ghost few_outside: { outside ≤ length locals.items },
    ghost tracked: { flow.vars ≡ most_locals },
    ghost few_tracked: { most_locals ≤ 256 },
    ghost breaks_alike: { HasVars flow.vars breaks },
    ghost continues_alike: { HasVars flow.vars continues },
    ghost tags_found: { Finds tag_places tags.items },
    ghost functions_found: { Finds function_places (map (λ f. f.name) functions.items) },
    ghost variables_found: { Finds variable_places (map (λ v. v.name) variables.items) },
    ghost counted: { Counts tainted_counts.items (map signature functions.items) },
}

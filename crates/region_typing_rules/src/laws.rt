// Worked examples of the rules, and what holds of all programs that keep them.

ghost use Rattle.std.specs.Prelude.{◌≡◌, ◌*◌, ◌≤◌, true, All, None};
ghost use Rattle.ckc_tree.specs.Items.{Tree};
ghost use Rattle.ckc_tree.specs.Heights.{height};
ghost use Rattle.ckc_tree.specs.Weights.{tree_weight};
ghost use Rattle.ckc_names_rules.specs.Naming.{naming_fault, named_of};
ghost use Rattle.built_forms.specs.Built.{is_built};
ghost use Rattle.ckc_core.specs.Core.{Core};
ghost use Rattle.ckc_core.specs.Programs.{parted};
ghost use Rattle.ckc_core.specs.Weights.{statements_weight};
ghost use Rattle.region_typing_rules.specs.Verdicts.{Unnamed};
ghost use Rattle.region_typing_rules.specs.Operands.{Places};
ghost use Rattle.region_typing_rules.specs.Cores.{checked};
ghost use Rattle.region_typing_rules.specs.CheckPlaces.{ChecksAreNamed};
ghost use Rattle.region_typing_rules.specs.NeverStuck.{HasCore, NeverStuck, NeverUnsound, AlwaysEnds};
ghost use Rattle.region_typing_rules.specs.KnownIsSo.{MarkedAlone};
ghost use Rattle.region_typing_rules.specs.ConditionsAreSo.{ConditionsAreSo};
ghost use Rattle.region_typing_rules.specs.Typed.{IsTyped};
ghost use Rattle.region_typing_rules.specs.Lowerable.{HasFewFunctions, IsSmallCore};
ghost use Rattle.region_typing_rules.specs.DeclaredFormed.{DeclaredFormed};
ghost use Rattle.region_typing_rules.specs.Examples as examples;
ghost use Rattle.region_typing_rules.specs.ReadingExamples as readings;
ghost use Rattle.region_typing_rules.specs.KnowingExamples as knowing;
ghost use Rattle.region_typing_rules.specs.CallExamples as calls;
ghost use Rattle.region_typing_rules.specs.KeptExamples as kept;
ghost use Rattle.region_typing_rules.specs.MemoryExamples as memory;
ghost use Rattle.region_typing_rules.specs.FileLevelExamples as file_level;
ghost use Rattle.region_typing_rules.specs.EndedExamples as ended;
ghost use Rattle.region_typing_rules.specs.StringExamples as strings;
ghost use Rattle.region_typing_rules.specs.BundleExamples as bundles;

/// Programs and what they become, worked out from the rules.
pub fn examples()
    ensures first_run { examples.first_run }
    ensures raw_in_checked { examples.raw_in_checked }
    ensures break_outside { examples.break_outside }
    ensures without_bodies { examples.without_bodies }
{}

/// What is read off small expressions, and what conditions tell.
pub fn readings()
    ensures terms { readings.terms }
    ensures sums { readings.sums }
    ensures conditions { readings.conditions }
    ensures null_tests { readings.null_tests }
    ensures right_operands { readings.right_operands }
{}

/// What is known behind small statements.
pub fn knowing()
    ensures branches { knowing.branches }
    ensures loops { knowing.loops }
    ensures heads { knowing.heads }
    ensures shadows { knowing.shadows }
    ensures counts { knowing.counts }
{}

/// What stands for the bounds of parameters at a call, and which bounds of declarations agree.
pub fn calls()
    ensures one_term { calls.one_term }
    ensures exchanged { calls.exchanged }
    ensures from_pointer { calls.from_pointer }
    ensures without_term { calls.without_term }
    ensures without_pointer { calls.without_pointer }
    ensures result { calls.result }
    ensures same { calls.same }
    ensures other { calls.other }
    ensures none { calls.none }
    ensures unknown { calls.unknown }
{}

/// Where a body assigns first what may not be assigned.
pub fn kept()
    ensures first { kept.first }
    ensures steps { kept.steps }
    ensures hidden { kept.hidden }
{}

/// How many elements new memory has, what a pointer is cast to, and what a local array becomes.
pub fn memory()
    ensures factors { memory.factors }
    ensures bytes { memory.bytes }
    ensures bases { memory.bases }
    ensures casts { memory.casts }
    ensures arrays { memory.arrays }
{}

/// What a file-level pointer is for which bounds are declared.
pub fn file_level()
    ensures declared { file_level.declared }
    ensures names { file_level.names }
    ensures assigned { file_level.assigned }
{}

/// What null-terminated pointers are: how far they are read, what widens them, and what they are where no bounds are written.
pub fn null_terminated()
    ensures widening { ended.widening }
    ensures tests { ended.tests }
    ensures elements { ended.elements }
    ensures lengths { ended.lengths }
    ensures unwritten { ended.unwritten }
    ensures memory { ended.memory }
{}

/// Strings and their blocks.
pub fn strings()
    ensures strings { strings.strings }
    ensures blocks { strings.blocks }
    ensures limits { strings.limits }
    ensures in_bounds { strings.in_bounds }
    ensures standing { strings.standing }
{}

/// What bundles become, and what they are refused for.
pub fn bundles()
    ensures together { bundles.together }
    ensures settled { bundles.settled }
    ensures targets { bundles.targets }
    ensures ways { bundles.ways }
{}

/// Bounds that are declared for a local or a parameter are formed: they are of a pointer to elements that have bytes, their ends speak of `int` locals, their
/// base is a pointer of its mode and element, and their constants are limited.
pub fn declared_bounds()
    ensures { DeclaredFormed }
{}

/// What the walk knows behind a condition that came out so is so in each run, and a statement changes only the variables that the walk
/// marks.
pub fn known_is_so()
    ensures conditions { ConditionsAreSo }
    ensures marked { MarkedAlone }
{}

/// The core of a program that breaks no rule has types, and its audited run is never stuck.
pub fn never_stuck()
    ensures typed { (at : Places) (t : Tree) (c : Core) → HasCore at t c → IsTyped (parted c) }
    ensures stuck { (at : Places) (t : Tree) (c : Core) → HasCore at t c → NeverStuck c }
{}

/// In the audited run of a program that breaks no rule each pointer is valid with its bounds.
pub fn never_unsound()
    ensures { (at : Places) (t : Tree) (c : Core) → HasCore at t c → NeverUnsound c }
{}

/// The run of a program that breaks no rule ends, and it is the audited one.
pub fn always_ends()
    ensures { (at : Places) (t : Tree) (c : Core) → HasCore at t c → AlwaysEnds c }
{}

/// The core of a program that breaks no rule and whose tree isn't too high is small enough to be lowered.
pub fn lowerable()
    ensures { (at : Places) (t : Tree) (c : Core) → HasCore at t c → height t ≤ 200 → IsSmallCore (parted c) }
{}

/// Where naming finds no fault, each name stands for something in the rules too.
pub fn named()
    ensures { (at : Places) (t : Tree) → is_built t ≡ true → naming_fault t ≡ None → checked at (named_of t) ≡ Unnamed → ⊥ }
{}

/// The core of a program that breaks no rule has few functions of each side.
pub fn few_functions()
    ensures { (at : Places) (t : Tree) (c : Core) → HasCore at t c → HasFewFunctions (parted c) }
{}

/// The body of each function of a program that breaks no rule has at most five nodes for each node of its tree.
pub fn few_nodes()
    ensures { (at : Places) (t : Tree) (c : Core) → HasCore at t c → All (λ f. statements_weight f.body ≤ 5 * tree_weight t) (parted c).functions }
{}

/// Where the run of a program that breaks no rule ends with a check, the place that it names is the start of an expression, an assignment or a
/// declaration of its tree, and the check's condition is false there.
pub fn named_checks()
    ensures { (at : Places) (t : Tree) (c : Core) → HasCore at t c → ChecksAreNamed at t c }
{}

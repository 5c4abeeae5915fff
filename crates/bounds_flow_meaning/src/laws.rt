// What flows say of states: each function proves what its contract says, and does nothing.

ghost use Rattle.bounds_flow_meaning.specs.Calls.{CallsKeep};
ghost use Rattle.bounds_flow_meaning.specs.Examples.{CountsFit, RaisedCountsHold, UpToThree};
ghost use Rattle.bounds_flow_meaning.specs.Laws.{CutsAreNotReached, EntriesFit, FlowsHold, FlowsStayAlike};
ghost use Rattle.bounds_flow_meaning.specs.Sums.{AuditsPass, BasesStay, BlocksGrow, EndsMoveBack, NewBlocksCount, NullIsValid, VariablesAreBases};

/// States of three ints, and what flows say of them.
pub fn examples()
    ensures valid { UpToThree }
    ensures fit { CountsFit }
    ensures raised { RaisedCountsHold }
{}

/// What a flow says is so of each state at its place, from the entry of a function on: each step keeps it, where the state
/// makes that step. No state is at a place that no way leads to.
pub fn flows_hold()
    ensures entry { EntriesFit }
    ensures steps { FlowsHold }
    ensures cut { CutsAreNotReached }
{}

/// What steps leave as it is, whether a state is at their place or not: the bounds that are declared, and that nothing became
/// of pointers since the last settling.
pub fn flows_stay_alike()
    ensures { FlowsStayAlike }
{}

/// What is valid passes the audit. Bounds of null, of a variable read from itself, of a pointer that goes on in its block, of one
/// that waits while blocks are added, and of an allocation.
pub fn sums_stay_valid()
    ensures audits { AuditsPass }
    ensures null { NullIsValid }
    ensures variables { VariablesAreBases }
    ensures ends { EndsMoveBack }
    ensures bases { BasesStay }
    ensures blocks { BlocksGrow }
    ensures allocations { NewBlocksCount }
{}

/// Bounds of arguments and of results, over the parameters of the function that is called and over the terms that stand for them
/// in its caller.
pub fn calls_keep_validity()
    ensures { CallsKeep }
{}

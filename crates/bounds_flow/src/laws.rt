// What flows know: each function proves what its contract says, and does nothing.

ghost use Rattle.bounds_flow.specs.Laws.{AreKept, FlowsEntailExactly};
ghost use Rattle.bounds_flow.specs.Examples.{AtEntry, BasesMove, BundlesEnd, CountsAreLowered, CountsAreRaised, CountsAreReplaced, DeclaredBoundsComeBack, EndsAreAskedInOrder, LengthsAreBounds, LoopsForget, LostLengthsComeBack, NullMeetsAll, ScopesEnd, ShiftsAreLimited, ShiftsByNothingCount, TestsForNull, TestsTellTwoWays, TestsWiden, WaysMeet, WaysMeetAgain, WideningIsLimited};

/// Entry, scopes and ways.
pub fn ways()
    ensures entry { AtEntry }
    ensures scopes { ScopesEnd }
    ensures loops { LoopsForget }
    ensures joins { WaysMeet }
    ensures expressions { WaysMeetAgain }
    ensures bundles { BundlesEnd }
{}

/// Assignments to `int` variables.
pub fn numbers()
    ensures lower { CountsAreLowered }
    ensures higher { CountsAreRaised }
    ensures others { CountsAreReplaced }
    ensures nothing { ShiftsByNothingCount }
    ensures limits { ShiftsAreLimited }
    ensures declared { DeclaredBoundsComeBack }
{}

/// Assignments to pointers, and settlings.
pub fn pointers()
    ensures bases { BasesMove }
    ensures null { NullMeetsAll }
    ensures ends { EndsAreAskedInOrder }
{}

/// Tests.
pub fn tests()
    ensures terms { TestsTellTwoWays }
    ensures null { TestsForNull }
{}

/// Null-terminated pointers.
pub fn lengths()
    ensures tests { TestsWiden }
    ensures limits { WideningIsLimited }
    ensures lengths { LengthsAreBounds }
    ensures lost { LostLengthsComeBack }
{}

/// Each step of a flow gives a flow, and what a flow entails is what each valuation that meets its facts meets.
pub fn flows()
    ensures kept { AreKept }
    ensures exact { FlowsEntailExactly }
{}

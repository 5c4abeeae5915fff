// The definitions on worked examples: each function proves what its contract says, and does nothing.

ghost use Rattle.bounds_exprs.specs.Examples.{TenBytesAreTwo, TwoAreCounted, SizesCountElements, TwiceAVariableIsNone, EndsGoByTheTree, PartsAreLimited, PastTheLimitIsNone, LimitsAreReached, EndsAreLimited};
ghost use Rattle.bounds_exprs.specs.StepExamples.{ConstantsAreAdded, EndsMove, NamesStandForSums, ProductsAreConstants, ShiftsMoveBack, SumsAreLimited, TermsAreFilledIn};
ghost use Rattle.bounds_exprs.specs.Steps.{TermsAgree};
ghost use Rattle.bounds_exprs.specs.Values.{FillingKeepsValues, PartsAddUp, ShiftsKeepValues};

/// Counts of elements and of bytes.
pub fn counts()
    ensures bytes { TenBytesAreTwo }
    ensures elements { TwoAreCounted }
    ensures sizes { SizesCountElements }
    ensures twice { TwiceAVariableIsNone }
    ensures ends { EndsGoByTheTree }
{}

/// Limits of constants.
pub fn limits()
    ensures parts { PartsAreLimited }
    ensures terms { PastTheLimitIsNone }
    ensures reached { LimitsAreReached }
    ensures ends { EndsAreLimited }
{}

/// Sums in bounds have the terms that they have as expressions.
pub fn terms_agree()
    ensures { TermsAgree }
{}

/// Terms of expressions.
pub fn expressions()
    ensures products { ProductsAreConstants }
    ensures sums { ConstantsAreAdded }
    ensures limits { SumsAreLimited }
{}

/// Changes of bounds, and names in bounds.
pub fn changes()
    ensures moves { EndsMove }
    ensures shifts { ShiftsMoveBack }
    ensures parameters { TermsAreFilledIn }
    ensures names { NamesStandForSums }
{}

/// What terms come to where each variable has a number: the terms of parts, after a shift, and with terms put for
/// parameters.
pub fn terms_keep_values()
    ensures parts { PartsAddUp }
    ensures shifts { ShiftsKeepValues }
    ensures parameters { FillingKeepsValues }
{}

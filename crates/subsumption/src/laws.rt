// What closed tables of facts say: each function proves what its contract says, and does nothing.

ghost use Rattle.std.specs.Prelude.{ℕ};
ghost use Rattle.subsumption.specs.TableExamples.{ChainsEntail, ConstantsAreLimited, ContradictionsEntailAll, JoinsKeepTheWeaker, ShiftsMoveFacts};
ghost use Rattle.subsumption.specs.ShownTables.{AnswersAreShown, ShowOne};
ghost use Rattle.subsumption.specs.TableLaws.{AreExact, EntailsExactly, EntailsTermsExactly, GiveTables, HaveOneForm, NoFactsAreMet};

/// Worked examples.
pub fn closed_tables()
    ensures chain { ChainsEntail }
    ensures contradiction { ContradictionsEntailAll }
    ensures shift { ShiftsMoveFacts }
    ensures limits { ConstantsAreLimited }
    ensures join { JoinsKeepTheWeaker }
{}

/// A table entails exactly what each valuation that meets its facts meets, and none is kept from meeting no facts.
pub fn tables_entail_exactly()
    ensures facts { EntailsExactly }
    ensures terms { EntailsTermsExactly }
    ensures none { NoFactsAreMet }
{}

/// Changes of closed tables are closed tables.
pub fn changes_are_tables()
    ensures { (vars : ℕ) → GiveTables vars }
{}

/// What is entailed after each change.
pub fn changes_are_exact()
    ensures { AreExact }
{}

/// Tables that entail the same are the same.
pub fn tables_have_one_form()
    ensures { HaveOneForm }
{}

/// Facts show one closed table at most, and an exact answer to a question about them is what that says.
pub fn facts_show_tables()
    ensures answers { AnswersAreShown }
    ensures one { ShowOne }
{}

// What the code of a program does.

ghost use Rattle.std.specs.Prelude.{◌≡◌, ◌^◌, ◌<◌, IsTrue, List, length, All, pos, None};
ghost use Rattle.std.proofs.Common.{ℤ};
ghost use Rattle.act_words.specs.declared.ending.Ending.{Ending};
ghost use Rattle.act_words.specs.declared.settings.Settings.{Settings};
ghost use Rattle.act_words.specs.Acts.{Act, IsAct};
ghost use Rattle.act_words.specs.Checks.{is_word_number};
ghost use Rattle.act_words.specs.Limits.{AreAllowed};
ghost use Rattle.ckc_core.specs.Outcome.{Ends};
ghost use Rattle.check_insertion.specs.ErasedMeaning.{meaning};
ghost use Rattle.ckc_core.specs.States.{State};
ghost use Rattle.act_words.specs.declared.ending.Ending.TheVariants.{Check, Exit, Stop};
ghost use Rattle.ckc_text.specs.declared.code.Code.TheVariants.{C2, S1};
ghost use Rattle.check_insertion.specs.Erased.{Erased, Function};
ghost use Rattle.check_insertion.specs.Insert.{inserted};
ghost use Rattle.ckc_core.specs.Examples.{first_run, counting, members, site, sum};
ghost use Rattle.lowering.specs.Images.{image_of};
ghost use Rattle.lowering.specs.Code.{function_ops};
ghost use Rattle.lowering.specs.Correct.{IsFunction, IsLowerable, KeepsMeaning, AgreesAtBases};
ghost use Rattle.lowering.specs.Examples.{ends, holds, shown_members, stored_element, not_of, back};

/// The code of a program does what the program means, under all settings and over all inputs and acts.
pub fn code_keeps_meaning()
    ensures { (program : Erased) → IsLowerable program → KeepsMeaning program (image_of program) }
{}

/// The code of a program shows nothing of its base address: over inputs and acts over which the program's meaning ends, the
/// ending, the output, the acts that are taken, the releases and the view are the same at every two.
pub fn bases_agree()
    ensures { (program : Erased) (settings : Settings) (inputs : List ℤ) (acts : List Act) (ending : Ending) (s : State)
        → IsLowerable program → AreAllowed settings → All (λ z. IsTrue (is_word_number z)) inputs → All IsAct acts
        → meaning program settings inputs acts ≡ Ends ending s → AgreesAtBases (image_of program) settings inputs acts }
{}

/// The code of a function that can be lowered has fewer than 2^32 instructions, so a word holds each place in it.
pub fn short_code()
    ensures { (f : Function) → IsFunction f → length (function_ops f) < 2 ^ 32 }
{}

/// Small programs as code, with what the code does.
pub fn examples()
    ensures first_run { ends (inserted first_run) 100 (Exit (pos 42)) }
    ensures turns { ends (inserted counting) 3 (Exit (pos 3)) }
    ensures budget { ends (inserted counting) 2 (Stop S1 None) }
    ensures members { ends (inserted members) 100 (Exit (pos 51)) }
    ensures blocks { holds (inserted members) shown_members }
    ensures elements { ends (inserted stored_element) 100 (Exit (pos 7)) }
    ensures sums { ends (inserted (not_of (sum (pos 4)))) 100 (Check C2 (site 2 9).place)
        × ends (inserted (not_of (back 1))) 100 (Check C2 (site 2 9).place) × ends (inserted (not_of (back 0))) 100 (Exit (pos 0)) }
{}

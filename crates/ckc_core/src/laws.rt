// What the meaning says of small programs, by computation, and that it says something of every one.

ghost use Rattle.std.specs.Prelude.{◌≡◌, ℤ, Bool, List};
ghost use Rattle.act_words.specs.declared.settings.Settings.{Settings};
ghost use Rattle.act_words.specs.Acts.{Act};
ghost use Rattle.ckc_core.specs.Outcome.{Short};
ghost use Rattle.ckc_core.specs.Core.{Core};
ghost use Rattle.ckc_core.specs.Meaning.{run_of};
ghost use Rattle.ckc_core.specs.Audits.{AuditChangesNothing};
ghost use Rattle.ckc_core.specs.FailedChecks.{FailedChecks};
ghost use Rattle.ckc_core.specs.Examples as examples;

/// Small programs with what they mean, and pointers with whether they are valid.
pub fn examples()
    ensures first_run { examples.first_run_ends }
    ensures overflow { examples.overflow_ends }
    ensures turns { examples.loop_ends }
    ensures budget { examples.loop_budget }
    ensures depth { examples.depth_and_budget }
    ensures members { examples.struct_ends }
    ensures within_block { examples.within_block }
    ensures empty_bounds { examples.empty_bounds }
    ensures beyond_block { examples.beyond_block }
    ensures array { examples.array_ends }
    ensures bounds { examples.array_bounds }
    ensures null_arrays { examples.null_arrays }
    ensures casts { examples.cast_ends }
    ensures text_reads { examples.text_reads }
    ensures text_stores { examples.text_stores }
    ensures text_counts { examples.text_counts }
    ensures text_allocations { examples.text_allocations }
    ensures text_arrays { examples.text_arrays }
{}

/// What a program means is told: it has as many ticks as its budget, and is never short of them.
pub fn never_short()
    ensures { (audited : Bool) (program : Core) (settings : Settings) (inputs : List ℤ) (acts : List Act)
        → run_of audited program settings inputs acts ≡ Short → ⊥ }
{}

/// Where the audit finds nothing, the meaning is the same without it.
pub fn audit_changes_nothing()
    ensures { (program : Core) → AuditChangesNothing program }
{}

/// Where a run ends with a check, it came to a part of the program whose operands gave values of which that check's condition is false.
pub fn failed_checks()
    ensures { (program : Core) → FailedChecks program }
{}

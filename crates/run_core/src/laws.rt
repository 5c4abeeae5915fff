// What the texts of small runs are, by computation, and what holds of runs whose acts an actor gave.

ghost use Rattle.std.specs.Prelude.{◌≡◌, ◌∷◌, [], ℕ, Bool, IsTrue, List, Option, codes, Some, None, pos};
ghost use Rattle.std.proofs.Common.{ℤ};
ghost use Rattle.ckc_io.specs.Files.{Files};
ghost use Rattle.code_words.specs.declared.image.Image.{Image as ImageData};
ghost use Rattle.code_words.specs.Dumps.{blocks_held};
ghost use Rattle.code_words.specs.Paced.{is_paced};
ghost use Rattle.code_words.specs.Runs.{CodeRun};
ghost use Rattle.code_words.specs.Table.{State as MachineState};
ghost use Rattle.act_words.specs.declared.ending.Ending.{Ending as EndingData};
ghost use Rattle.act_words.specs.declared.settings.Settings.{Settings as SettingsData};
ghost use Rattle.ckc_text.specs.declared.code.Code.TheVariants.{C2, S1, S4};
ghost use Rattle.act_words.specs.declared.act.Turn.TheVariants as turns;
ghost use Rattle.act_words.specs.declared.ending.Ending.TheVariants.{Exit, Check, Stop};
ghost use Rattle.act_words.specs.Acts.{Act as ActData, Looked, SeenReply};
ghost use Rattle.act_words.specs.World.{Output, Released, Showed, NoAct};
ghost use Rattle.act_recorder.specs.Endings.{ending_text};
ghost use Rattle.run_core.specs.Texts.{run_text, front_text};
ghost use Rattle.run_core.specs.Gave.{Gave, AnswersOnce, AlwaysActs};
ghost use Rattle.run_core.specs.Moments.{due_in, before_due};
ghost use Rattle.run_core.specs.Examples.{plain, viewed, dumped, written, echo, text_by};

use sandbox_actor::actor::Actor;

/// The line of each ending.
pub fn endings()
    ensures exit { ending_text (Exit (pos 42)) ≡ codes "[exit 42]\n" }
    ensures check { ending_text (Check C2 (record { line = 6; col = 5 })) ≡ codes "[check C2 6:5 bounds]\n" }
    ensures stop { ending_text (Stop S1 None) ≡ codes "[stop S1 budget]\n" }
    ensures act { ending_text (Stop S4 (Some 2)) ≡ codes "[stop S4 act 2 sandbox access]\n" }
{}

/// Output as it is, with the line feed that it lacks, and as lines among others.
pub fn texts()
    ensures quiet { run_text plain (Released Looked ∷ Showed (SeenReply 1) ∷ []) (Exit (pos 0)) [] ≡ codes "[exit 0]\n" }
    ensures fed { run_text plain written (Exit (pos 0)) [] ≡ codes "ab\n[exit 0]\n" }
    ensures lines { run_text viewed (Released Looked ∷ written) (Exit (pos 0)) [] ≡ codes "{\"out\":\"6162\"}\n[exit 0]\n" }
    ensures front { front_text plain written ≡ codes "ab\n" }
{}

/// The first act that a run hasn't got: whose turn it was, what was shown last before, and what had happened.
pub fn due()
    ensures moment { due_in (Showed (SeenReply 1) ∷ Released Looked ∷ NoAct turns.Sandbox ∷ Showed (SeenReply 2) ∷ NoAct turns.Trusted ∷ [])
        ≡ Some (record { turn = turns.Sandbox; last = Some (SeenReply 1) }) }
    ensures before { before_due (Released Looked ∷ NoAct turns.Sandbox ∷ written) ≡ Released Looked ∷ [] }
    ensures none { due_in written ≡ None }
{}

/// A run that prints an input number, and 0 where none is left, with its last blocks.
pub fn runs()
    ensures number { text_by echo plain (pos 7 ∷ []) ≡ codes "7\n[exit 0]\n" }
    ensures none { text_by echo plain [] ≡ codes "0\n[exit 0]\n" }
    ensures blocks { text_by echo dumped (pos 7 ∷ []) ≡ codes "7\n[exit 0]\n[block 65552 4 2a000000]\n" }
{}

/// An actor that has one answer at most at each moment gives the acts of one run of an image at most; and one that has an act at each
/// moment, and lowers its measure, gives those of a run that ends, if the image is paced.
pub fn given_runs<A: Actor>()
    ensures one { (files : Option Files) (ok : A.State → Bool) (first a b : A.State) (image : ImageData) (settings : SettingsData) (inputs : List ℤ)
        (acts others : List ActData) (d e : EndingData) (t u : MachineState)
        → AnswersOnce A.answers files (λ s. IsTrue (ok s)) → IsTrue (ok first)
        → CodeRun image settings inputs acts d t → CodeRun image settings inputs others e u
        → Gave A.answers files first None t.world.events a → Gave A.answers files first None u.world.events b
        → (d ≡ e) × (t.world.events ≡ u.world.events) × (blocks_held t ≡ blocks_held u) }
    ensures some { (files : Option Files) (ok : A.State → Bool) (left : A.State → ℕ) (first : A.State) (image : ImageData)
        (settings : SettingsData) (inputs : List ℤ)
        → AnswersOnce A.answers files (λ s. IsTrue (ok s)) → AlwaysActs A.answers files (λ s. IsTrue (ok s)) left → IsTrue (ok first) → IsTrue (is_paced image)
        → (acts : List ActData) × (ending : EndingData) × (t : MachineState) × (after : A.State)
        × CodeRun image settings inputs acts ending t × (t.world.acts ≡ []) × Gave A.answers files first None t.world.events after }
{}

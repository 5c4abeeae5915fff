// What holds of the Answer over any files.

ghost use Rattle.std.specs.Prelude.{◌≡◌, ℕ, List};
ghost use Rattle.ckc_text.specs.declared.fault.SourceFault.{SourceFault};
ghost use Rattle.ckc_io.specs.Files.{Files};
ghost use Rattle.ckc_core.specs.Core.{Core};
ghost use Rattle.ckc_tree.specs.Items.{Tree};
ghost use Rattle.ccbox_call.specs.Acceptance.{Accepts, IsRefused, HasTree, CoreOrFault};
ghost use Rattle.code_words.specs.Images.{Image};
ghost use Rattle.ccbox_call.specs.Answers.{Answer};
ghost use Rattle.ccbox_call.specs.ReadListings.{Spells, IsRefusedAt, ImageOrRefusal};
ghost use Rattle.ccbox_call.specs.PrintedCode.{RunsAsSource};
ghost use Rattle.ccbox_call.specs.OwnExamples as examples;

/// A source has one core at most, or one fault at most and no core; so has a listing one image, or one refused line and no image; and
/// words have one text and one status at most.
pub fn at_most_one_answer()
    ensures core { (src : List ℕ) (c d : Core) → Accepts src c → Accepts src d → c ≡ d }
    ensures fault { (src : List ℕ) (f g : SourceFault) → IsRefused src f → IsRefused src g → f ≡ g }
    ensures core_or_fault { (src : List ℕ) (c : Core) (f : SourceFault) → Accepts src c → IsRefused src f → ⊥ }
    ensures image { (listed : List ℕ) (one other : Image) → Spells listed one → Spells listed other → one ≡ other }
    ensures line { (listed : List ℕ) (m n : ℕ) → IsRefusedAt listed m → IsRefusedAt listed n → m ≡ n }
    ensures image_or_line { (listed : List ℕ) (image : Image) (n : ℕ) → Spells listed image → IsRefusedAt listed n → ⊥ }
    ensures text { (files : Files) (words : List (List ℕ)) (t u : List ℕ) (m n : ℕ) → Answer files words t m → Answer files words u n → t ≡ u }
    ensures status { (files : Files) (words : List (List ℕ)) (t u : List ℕ) (m n : ℕ) → Answer files words t m → Answer files words u n → m ≡ n }
{}

/// Each source has a core or a fault, one with a tree among them; each listing has an image or a line that is refused; and words have
/// an Answer over every map of files.
pub fn some_answer()
    ensures tree { (src : List ℕ) (tree : Tree) → HasTree src tree → CoreOrFault src }
    ensures core_or_fault { (src : List ℕ) → CoreOrFault src }
    ensures image_or_line { (listed : List ℕ) → ImageOrRefusal listed }
    ensures answer { (files : Files) (words : List (List ℕ)) → (text : List ℕ) × (status : ℕ) × Answer files words text status }
{}

/// Words that ask to run the listing of a source's code have the Answer of those that ask to run the source with the same options.
pub fn code_runs_as_source()
    ensures { RunsAsSource }
{}

/// The acts of small functions of the sandbox, one that stores, one that calls back, one that divides by 0 and one that isn't there,
/// and those of a source, worked out from the definition.
pub fn own_code()
    ensures stores { examples.stores }
    ensures asks { examples.asks }
    ensures divides { examples.divides }
    ensures lacks { examples.lacks }
    ensures no_others { examples.no_others }
    ensures bodiless { examples.bodiless }
{}

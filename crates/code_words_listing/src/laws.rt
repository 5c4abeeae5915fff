// What holds of all listings, and the listings of small images.

ghost use Rattle.std.specs.Prelude.{◌≡◌, ℕ, List, ◌∷◌, [], ◌++◌, codes, Option, Some, None, negsuc, IsTrue};
ghost use Rattle.code_words.specs.declared.op.Op.TheVariants as ops;
ghost use Rattle.code_words.specs.Formats.{KeepsFormat, HasNames};
ghost use Rattle.code_words.specs.Images.{Image};
ghost use Rattle.code_words.specs.Paced.{is_paced};
ghost use Rattle.code_words_listing.specs.Lines.{Line, StaticBlock, Instruction, line_text, IsAllowed};
ghost use Rattle.code_words_listing.specs.Listings.{listing, text_of, InFormat};
ghost use Rattle.code_words_listing.specs.ReadLines.{line_of};
ghost use Rattle.code_words_listing.specs.Verdicts.{Verdict};
ghost use Rattle.code_words_listing.specs.Refused.{refused_in};
ghost use Rattle.code_words_listing.specs.Examples.{small_image, small_lines, import_then_block, second_block_first, with_code, without_close};

/// A listing with a line of each form.
pub fn small_listing()
    ensures { listing small_image ≡ text_of small_lines }
{}

/// Two images in the format that have the same listing are the same.
pub fn listings_tell_images()
    ensures { (one other : Image) → InFormat one → InFormat other → listing one ≡ listing other → one ≡ other }
{}

/// A text has one verdict at most: one line is refused, or none.
pub fn verdicts_agree()
    ensures { (text : List ℕ) (refused also : Option ℕ) → Verdict text refused → Verdict text also → refused ≡ also }
{}

/// Each text has a verdict: which line of it is refused can be computed, line by line.
pub fn texts_have_verdicts()
    ensures { (text : List ℕ) → Verdict text (refused_in text) }
{}

/// Texts of which a line is refused: groups in another order, jumps back to no tick, a call that a jump reaches, or that stands
/// behind no tick, a number that isn't the next one, a line of another place, and a text that ends before its listing does, or goes on behind it. The
/// earlier line is told where the pace is broken before a line that the format refuses.
pub fn refused_texts()
    ensures stands { refused_in (text_of small_lines) ≡ None }
    ensures empty { refused_in [] ≡ Some 1 }
    ensures no_feed { refused_in (codes "ccbox listing 1") ≡ Some 1 }
    ensures order { refused_in (text_of import_then_block) ≡ Some 4 }
    ensures number { refused_in (text_of second_block_first) ≡ Some 3 }
    ensures jump_back { refused_in (text_of (with_code (codes "zero" ∷ codes "drop" ∷ codes "jump 0" ∷ []))) ≡ Some 6 }
    ensures reached_call { refused_in (text_of (with_code (codes "jump 2" ∷ codes "tick" ∷ codes "call 0" ∷ []))) ≡ Some 4 }
    ensures call_alone { refused_in (text_of (with_code (codes "call 0" ∷ []))) ≡ Some 4 }
    ensures pace_first { refused_in (text_of (with_code (codes "call 0" ∷ codes "ret 0" ∷ []))) ≡ Some 4 }
    ensures ticked { refused_in (text_of (with_code (codes "tick" ∷ codes "jump 0" ∷ []))) ≡ None }
    ensures no_close { refused_in (text_of without_close) ≡ Some 4 }
    ensures close { refused_in (text_of (with_code (codes "close" ∷ []))) ≡ Some 4 }
    ensures behind { refused_in (text_of (without_close ++ codes "close" ∷ codes "close" ∷ [])) ≡ Some 5 }
    ensures behind_feed { refused_in (text_of (without_close ++ codes "close" ∷ []) ++ codes "x") ≡ Some 5 }
{}

/// No line is refused of the listing of an image in the format that keeps the pace.
pub fn listings_stand()
    ensures { (image : Image) → InFormat image → IsTrue (is_paced image) → Verdict (listing image) None }
{}

/// A text of which no line is refused is the listing of an image in the format that keeps the pace.
pub fn standing_texts_are_listings()
    ensures { (text : List ℕ) → Verdict text None → (image : Image) × InFormat image × IsTrue (is_paced image) × (text ≡ listing image) }
{}

/// An image in the format that keeps the pace keeps what every image keeps.
pub fn listed_images_keep_format()
    ensures { (image : Image) → InFormat image → IsTrue (is_paced image) → KeepsFormat image × HasNames image }
{}

/// What is read as a line is its text, and the line may stand in a listing.
pub fn lines_read()
    ensures { (text : List ℕ) (line : Line) → line_of text ≡ Some line → (line_text line ≡ text) × IsAllowed line }
{}

/// What the text of a line is read as is the line.
pub fn lines_read_back()
    ensures { (line : Line) → IsAllowed line → line_of (line_text line) ≡ Some line }
{}

/// Numbers at their limits.
pub fn lines_within()
    ensures least { line_of (codes "const -2147483648") ≡ Some (Instruction (ops.Const (negsuc 2147483647))) }
    ensures most { line_of (codes "local 4294967295") ≡ Some (Instruction (ops.Local 4294967295)) }
    ensures empty { line_of (codes "block 0 0 ") ≡ Some (StaticBlock 0 []) }
{}

/// Texts that are no lines: numbers with a leading zero, a minus zero, or outside their limits, names that are none, bytes in
/// capital letters or of another number, other words, and spaces that don't stand between words.
pub fn refused_lines()
    ensures leading_zero { line_of (codes "const 07") ≡ None }
    ensures minus_zero { line_of (codes "const -0") ≡ None }
    ensures plus { line_of (codes "const +7") ≡ None }
    ensures above { line_of (codes "const 2147483648") ≡ None }
    ensures below { line_of (codes "const -2147483649") ≡ None }
    ensures wide { line_of (codes "local 4294967296") ≡ None }
    ensures no_size { line_of (codes "alloc 0") ≡ None }
    ensures no_name { line_of (codes "import 0 1x args 0 result int") ≡ None }
    ensures many_arguments { line_of (codes "import 0 x args 17 result int") ≡ None }
    ensures large_frame { line_of (codes "fun 0 x args 0 slots 4096 stack 1 result int") ≡ None }
    ensures no_slots { line_of (codes "fun 0 x args 2 slots 1 stack 1 result int") ≡ None }
    ensures capitals { line_of (codes "block 0 1 FF") ≡ None }
    ensures odd { line_of (codes "block 0 1 f") ≡ None }
    ensures other_length { line_of (codes "block 0 2 ff") ≡ None }
    ensures nothing_passed { line_of (codes "arg void @1:1") ≡ None }
    ensures no_place { line_of (codes "neg 1:1") ≡ None }
    ensures two_spaces { line_of (codes "const  7") ≡ None }
    ensures space_behind { line_of (codes "ret ") ≡ None }
    ensures capital_word { line_of (codes "RET") ≡ None }
    ensures more_words { line_of (codes "ret 0") ≡ None }
    ensures empty { line_of [] ≡ None }
{}

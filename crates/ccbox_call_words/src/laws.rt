// Words at work.

ghost use Rattle.std.specs.Prelude.{◌≡◌, ℕ, List, Some, All, IsTrue};
ghost use Rattle.act_words.specs.Checks.{is_word_number};
ghost use Rattle.act_words.specs.Limits.{AreAllowed};
ghost use Rattle.ccbox_call_words.specs.Requests.{Options, Run, Exec, settings_of, inputs_of, request_of};
ghost use Rattle.ccbox_call_words.specs.Examples as examples;

/// What words ask for, worked out from the definition.
pub fn requests()
    ensures alone { examples.alone }
    ensures commands { examples.commands }
    ensures listings { examples.listings }
    ensures together { examples.together }
    ensures places { examples.places }
    ensures refused { examples.refused }
    ensures twice { examples.twice }
    ensures lists { examples.lists }
{}

/// The settings that words ask for are allowed, and their input numbers have 32 bits.
pub fn allowed()
    ensures settings { (words : List (List ℕ)) (file : List ℕ) (options : Options) → request_of words ≡ Some (Run file options)
        → AreAllowed (settings_of options) }
    ensures inputs { (words : List (List ℕ)) (file : List ℕ) (options : Options) → request_of words ≡ Some (Run file options)
        → All (λ z. IsTrue (is_word_number z)) (inputs_of options) }
    ensures listing_settings { (words : List (List ℕ)) (file : List ℕ) (options : Options) → request_of words ≡ Some (Exec file options)
        → AreAllowed (settings_of options) }
    ensures listing_inputs { (words : List (List ℕ)) (file : List ℕ) (options : Options) → request_of words ≡ Some (Exec file options)
        → All (λ z. IsTrue (is_word_number z)) (inputs_of options) }
{}

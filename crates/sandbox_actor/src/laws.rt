// What the definitions say of small files, by computation, and what they say together.

ghost use Rattle.std.specs.Prelude.{◌≡◌, ◌++◌, [], codes, flat_map, replicate, take, List, Option, Some, None, ℕ};
ghost use Rattle.ckc_text.specs.declared.code.Code.{Code};
ghost use Rattle.ckc_text.specs.declared.code.Code.TheVariants.{A2, A4};
ghost use Rattle.ckc_io.specs.Files.{Files};
ghost use Rattle.std.specs.List.{All};
ghost use Rattle.act_words.specs.Acts.{Act as ActData, IsAct, Go, Stop};
ghost use Rattle.sandbox_actor.specs.Answers.{Answer, Moment, Ended, Refused};
ghost use Rattle.sandbox_actor.specs.ActLists.{ActList, Given, ListAnswers, act_then, acts_from, acts_of_file, lines_of, no_acts, refused_at};

use crate::actor::Actor;
use crate::list_actor::ListActor;

/// The acts of small files, and the line that is refused behind them.
pub fn files()
    ensures two { acts_of_file (codes "{\"act\":\"go\"}\n\n{\"act\":\"stop\"}") ≡ act_then Go (act_then Stop no_acts) }
    ensures spaces { acts_of_file (codes " \t \r\n{\"act\":\"go\"}\r\n ") ≡ act_then Go no_acts }
    ensures empty { acts_of_file [] ≡ no_acts }
    ensures third { acts_of_file (codes "{\"act\":\"go\"}\n\n{\"act\":\"jump\"}\n{\"act\":\"go\"}") ≡ act_then Go (refused_at 3 A2) }
    ensures blank { acts_of_file (replicate 4096 32) ≡ no_acts }
    ensures long { acts_of_file (replicate 4097 32) ≡ refused_at 1 A4 }
{}

/// The ends of what is read: the line that ends with byte 1,048,576 and the one that holds the next byte; line
/// 16,777,216 and the next line.
pub fn limits()
    ensures last_byte { acts_from 2 1048563 (lines_of (codes "{\"act\":\"go\"}\n")) ≡ act_then Go no_acts }
    ensures next_byte { acts_from 2 1048564 (lines_of (codes "{\"act\":\"go\"}\n")) ≡ refused_at 2 A4 }
    ensures blank_byte { acts_from 2 1048576 (lines_of (codes "\n")) ≡ refused_at 2 A4 }
    ensures last_line { acts_from 16777216 0 (lines_of (codes "{\"act\":\"go\"}\n{\"act\":\"stop\"}\n")) ≡ act_then Go no_acts }
{}

/// What a file says is said by its first 1,048,577 bytes.
pub fn first_bytes()
    ensures { (file : List ℕ) → acts_of_file (take 1048577 file) ≡ acts_of_file file }
{}

/// What a file says are acts.
pub fn says_acts()
    ensures { (file : List ℕ) → All IsAct (acts_of_file file).acts }
{}

/// The lines of a text are the text.
pub fn joined()
    ensures { (text : List ℕ) → flat_map (λ line. line) (lines_of text) ≡ text }
{}

/// From a list there is one answer, with one list behind it.
pub fn one_answer()
    ensures one { (before after after' : ActList) (files files' : Option Files) (now now' : Moment) (x y : Answer)
        → ⟦<ListActor as Actor>⟧.answers before files now x after → ⟦<ListActor as Actor>⟧.answers before files' now' y after'
        → (x ≡ y) × (after ≡ after') }
    ensures some { (before : ActList) (files : Option Files) (now : Moment)
        → (x : Answer) × (after : ActList) × ⟦<ListActor as Actor>⟧.answers before files now x after }
{}

/// What is given one after another are the acts of the list, in order and each once. The end comes behind the last one, and
/// a refusal is that of the list, behind the last one too.
pub fn given_in_order()
    ensures front { (list left : ActList) (acts : List ActData)
        → Given list acts left → list ≡ record { acts = acts ++ left.acts; refused = left.refused } }
    ensures ended { (list left after : ActList) (acts : List ActData)
        → Given list acts left → ListAnswers left Ended after → list ≡ record { acts = acts; refused = None } }
    ensures refused { (list left after : ActList) (acts : List ActData) (line : ℕ) (code : Code)
        → Given list acts left → ListAnswers left (Refused line code) after
        → list ≡ record { acts = acts; refused = Some (record { line = line; code = code }) } }
    ensures all { (list : ActList) → Given list list.acts (record { acts = []; refused = list.refused }) }
{}

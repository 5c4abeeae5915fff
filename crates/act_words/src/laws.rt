// What the definitions say of small lines, by computation, and what they say together.

ghost use Rattle.std.specs.Prelude.{◌≡◌, ◌<◌, ℕ, List, codes, ◌∷◌, [], replicate};
ghost use Rattle.std.specs.List.{All};
ghost use Rattle.ckc_text.specs.declared.code.Code.TheVariants.{A1, A2, A3, A4, A5};
ghost use Rattle.act_words.specs.Acts.{Go, Read, Write, Call, Return, Stop, act_view, IsAct, IsWord};
ghost use Rattle.act_words.specs.Readings.{line_reading, Says, Refuses};
ghost use Rattle.act_words.specs.Acts.{Act as ActData};
ghost use Rattle.act_words.specs.Lines.{act_line, act_text};
ghost use Rattle.act_words.specs.Values.{act_value};
ghost use Rattle.serde_json.specs.Written.{compact_text};

use crate::act::Act;

/// Lines of acts, with members in any order and hexadecimal in either case.
pub fn readings()
    ensures go { line_reading (codes "{\"act\":\"go\"}") ≡ Says Go }
    ensures read { line_reading (codes " { \"len\" : 4 , \"at\" : 16 , \"act\" : \"read\" }\r") ≡ Says (Read 16 4) }
    ensures write { line_reading (codes "{\"act\":\"write\",\"at\":4294967295,\"hex\":\"0aFf\"}") ≡ Says (Write 4294967295 (10 ∷ 255 ∷ [])) }
    ensures call { line_reading (codes "{\"act\":\"call\",\"args\":[1,2],\"fun\":0}") ≡ Says (Call 0 (1 ∷ 2 ∷ [])) }
    ensures twice { line_reading (codes "{\"act\":\"stop\",\"value\":1,\"value\":7,\"act\":\"return\"}") ≡ Says (Return 7) }
    ensures stop { line_reading (codes "{\"act\":\"stop\"}") ≡ Says Stop }
{}

/// A line of each refusal, and lines to which two or more apply.
pub fn refusals()
    ensures long { line_reading (replicate 4097 32) ≡ Refuses A4 }
    ensures cut { line_reading (codes "{\"act\":\"go\"") ≡ Refuses A1 }
    ensures unknown { line_reading (codes "{\"act\":\"jump\"}") ≡ Refuses A2 }
    ensures minus { line_reading (codes "{\"act\":\"return\",\"value\":-1}") ≡ Refuses A3 }
    ensures fraction { line_reading (codes "{\"act\":\"return\",\"value\":1.0}") ≡ Refuses A3 }
    ensures large { line_reading (codes "{\"act\":\"return\",\"value\":4294967296}") ≡ Refuses A3 }
    ensures size { line_reading (codes "{\"act\":\"read\",\"at\":0,\"len\":65}") ≡ Refuses A5 }
    ensures shape_first { line_reading (codes "{\"act\":\"return\",\"value\":-1,\"x\":0}") ≡ Refuses A2 }
    ensures number_next { line_reading (codes "{\"act\":\"read\",\"at\":-1,\"len\":0}") ≡ Refuses A3 }
{}

/// The lines of two acts.
pub fn lines()
    ensures write { act_line (Write 16 (1 ∷ 171 ∷ [])) ≡ codes "{\"act\":\"write\",\"at\":16,\"hex\":\"01ab\"}\n" }
    ensures call { act_line (Call 0 (1 ∷ 2 ∷ [])) ≡ codes "{\"act\":\"call\",\"args\":[1,2],\"fun\":0}\n" }
{}

/// What each act's line says, without its line feed, is the act; and this line is the compact text of the act's value, as
/// `serde_json` writes it.
pub fn reads_back()
    ensures says { (a : ActData) → IsAct a → line_reading (act_text a) ≡ Says a }
    ensures compact { (a : ActData) → IsAct a → act_text a ≡ compact_text (act_value a) }
{}

/// What a line says is an act: its numbers are words, and its sizes are those that acts have.
pub fn says_acts()
    ensures { (line : List ℕ) (a : ActData) → line_reading line ≡ Says a → IsAct a }
{}

// What a slice of bytes holds.
fn are_bytes(bytes: &[u8])
    ensures { All (λ b. b < 256) bytes.now }
{}

// What a slice of words holds.
fn are_words(words: &[u32])
    ensures { All IsWord words.now }
{}

/// Each value of the type stands for an act whose numbers are words, whose bytes are 1 to 64 and whose arguments are at
/// most 16. The body only looks at the lists, so that the prover learns what they keep.
pub fn kept(act: &Act)
    ensures { IsAct (act_view act.now) }
{
    match act {
        Act::Read { at, len: _ } => {
            let _at = *at;
        }
        Act::Write { at, bytes } => {
            let _at = *at;
            are_bytes(bytes.octets.as_slice());
        }
        Act::Call { fun, args } => {
            let _fun = *fun;
            are_words(args.as_slice());
        }
        Act::Return { value } => {
            let _value = *value;
        }
        Act::Go | Act::Stop => {}
    }
}

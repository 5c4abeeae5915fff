// What the code does with what the sandbox was shown.

ghost use Rattle.std.specs.Prelude.{◌≡◌, Some, length, option_map, slice_get};
ghost use Rattle.act_words.specs.Acts.{SeenCall, SeenReply, seen_view};
ghost use Rattle.sandbox_actor_code.specs.Answering.{is_load_size, taken_of};
ghost use Rattle.sandbox_actor_code.specs.Codes.{Shows, ShowsFrom, at_rest, looking, reply_of, state_in, word_if, word_of};
ghost use Rattle.sandbox_actor_code.specs.declared.code_actor.Phase.TheVariants as phases;

use crate::code_actor::{CodeActor, Phase};
use crate::waiting_calls::Awaited;
use act_words::act::{Act, Seen};
use act_words::row::Words;
use flat_bytes::words;
use marshalling::kind::WordKind;

impl<'a> CodeActor<'a> {
    /// Goes on with what was shown last, up to the next instruction.
    pub(crate) fn show(&mut self, last: &Option<Seen>) -> Option<Act>
        ensures { ShowsFrom (state_in self.old.phase self.old) (taken_of (option_map seen_view last.now)) self.old result self.new }
    {
        match self.phase {
            Phase::Runs => None,
            Phase::Looks => self.look(last),
            Phase::Rests => self.wake(last),
            Phase::Stopped => self.stop(),
        }
    }

    // Goes on with the word of bytes that it looks at.
    fn look(&mut self, last: &Option<Seen>) -> Option<Act>
        requires { self.old.phase ≡ phases.Looks }
        ensures { Shows (taken_of (option_map seen_view last.now)) (looking self.old) self.old result self.new }
    {
        match seen_word(last) {
            Some(word) => {
                self.phase = Phase::Runs;
                self.resume(Some(word))
            }
            None => self.stop(),
        }
    }

    // Goes on where it is called, or where a callback replied.
    fn wake(&mut self, last: &Option<Seen>) -> Option<Act>
        requires { self.old.phase ≡ phases.Rests }
        ensures { Shows (taken_of (option_map seen_view last.now)) (at_rest self.old) self.old result self.new }
    {
        match last {
            Some(seen) => self.wake_by(seen),
            None => self.stop(),
        }
    }

    // Goes on where this is a call or a reply.
    fn wake_by(&mut self, seen: &Seen) -> Option<Act>
        requires { self.old.phase ≡ phases.Rests }
        ensures { Shows (taken_of (Some (seen_view seen.now))) (at_rest self.old) self.old result self.new }
    {
        match seen {
            Seen::Called { fun, args } => self.take_call(*fun, args),
            Seen::Replied { value } => self.take_reply(*value),
            Seen::Bytes { at: _, bytes: _ } => self.stop(),
        }
    }

    // A function of the sandbox is called, where it is there and takes as many words.
    #[tactic(auto, using(std::proofs::lemmas::Bool::Decides::nat_tests))]
    fn take_call(&mut self, number: u32, args: &Words) -> Option<Act>
        requires { self.old.phase ≡ phases.Rests }
        ensures { Shows (Some (SeenCall number args.now)) (at_rest self.old) self.old result self.new }
    {
        let Some(fun) = self.function(number) else {
            return self.stop();
        };
        let words = args.as_slice();
        if fun.args() as usize != words.len() {
            return self.stop();
        }
        self.enter(fun, words)
    }

    // The reply of a callback comes back to the call that waits for it.
    fn take_reply(&mut self, value: u32) -> Option<Act>
        requires { self.old.phase ≡ phases.Rests }
        ensures { Shows (Some (SeenReply value)) (at_rest self.old) self.old result self.new }
    {
        match self.waiting.awaited() {
            Some(Awaited::Callback { number }) => {
                let value = self.reply_word(number, value);
                self.waiting.pop(&mut self.call);
                self.phase = Phase::Runs;
                self.resume(value)
            }
            Some(Awaited::Function) => self.stop(),
            None => self.stop(),
        }
    }

    // The word of a reply, unless the callback returns nothing.
    fn reply_word(&self, number: u32, value: u32) -> Option<u32>
        ensures { result ≡ reply_of (slice_get self.now.image.layout.callbacks number) value }
    {
        match self.image.callbacks().get(number as usize) {
            Some(callback) => match callback.result {
                WordKind::Void => None,
                WordKind::Int | WordKind::Char | WordKind::Pointer => Some(value),
            },
            None => Some(value),
        }
    }
}

// The word of bytes that were shown, if they are those of a load.
fn seen_word(last: &Option<Seen>) -> Option<u32>
    ensures { result ≡ word_of (taken_of (option_map seen_view last.now)) }
{
    match last {
        Some(Seen::Bytes { at: _, bytes }) => loaded_word(bytes.as_slice()),
        Some(Seen::Called { fun: _, args: _ }) => None,
        Some(Seen::Replied { value: _ }) => None,
        None => None,
    }
}

// The word of bytes that a load looks at: of one, or of four.
fn loaded_word(bytes: &[u8]) -> Option<u32>
    ensures { result ≡ word_if (is_load_size (length bytes.now)) bytes.now }
{
    match bytes.len() {
        1 => Some(words::get1(bytes, 0)),
        4 => Some(words::get4(bytes, 0)),
        _ => None,
    }
}

// Acts of the sandbox, before touches and in its turn.

ghost use Rattle.std.specs.Prelude.{◌≡◌, ◌≤◌, length, nat_lt, Some, None};
ghost use Rattle.act_words.specs.Acts.{Passed, Replied, Looked, Wrote};
ghost use Rattle.act_words.specs.Acting.{shown, written, lies_in, stopped_by_act};
ghost use Rattle.act_words.specs.World.{in_turn};
ghost use Rattle.act_words.specs.declared.act.Turn.TheVariants as turns;
ghost use Rattle.code_words.specs.Table.{Touch, Away, Loads, Stores, Passes, Replies, Over};
ghost use Rattle.marshalling.specs.Crossing.{fits_kind};
ghost use Rattle.code_words.specs.Moves.{make_touch, answer, in_world, reply_if};
ghost use Rattle.code_words.specs.Functions.{Func as FuncData};
ghost use Rattle.two_memory_machine_states.specs.Machines.{Running, Touching};
ghost use Rattle.two_memory_machine_states.specs.Pushes.{HasPushed};
ghost use Rattle.two_memory_machine_states.specs.Steps.{MovesBy, IsIn, IsSuspended, moved_if, bytes_if, EndsBy, EventBy};

use crate::event::Event;
use crate::running_image::{Pending, Phase, RunningImage};
use act_words::act::{Release, Seen};
use act_words::ending::Ending;
use act_words::row::{Octets, Words};
use ckc_text::code::Code;
use ckc_text::place::Place;
use flat_bytes::words;
use marshalling::kind::WordKind;
use marshalling::reply::unpack_reply;
use two_memory_machine_memory::calls::Link;
use two_memory_machine_memory::limits;
use two_memory_machine_memory::limits::WILD;

/// The end of a run whose sandbox has ended.
pub const SANDBOX_ENDED: Ending = Ending::Stop {
    code: Code::S3,
    act: None,
};

impl<'a> RunningImage<'a> {
    /// Makes the touch that waits.
    pub fn make_touch(&mut self) -> Event
        requires going { self.old.over ≡ None }
        requires touches { (touch : Touch) × (self.old.doing ≡ Touching touch) }
        ensures { (touch : Touch) → self.old.doing ≡ Touching touch
            → MovesBy (make_touch self.old.image self.old.frame touch) self.old result self.new }
    {
        let Phase::Touching { touch } = self.phase else {
            return Event::Ran;
        };
        match touch {
            Pending::Loads { at, len } => self.make_load(at, len),
            Pending::Stores { at, bytes } => self.make_store(at, bytes),
            Pending::Passes {
                import,
                words,
                place,
            } => self.make_call(import, words, place),
            Pending::Replies { value } => self.make_reply(value),
        }
    }

    // Loads bytes of the sandbox's memory, and pushes what they stand for.
    fn make_load(&mut self, at: u32, len: u32) -> Event
        requires going { self.old.over ≡ None }
        requires touches { self.old.doing ≡ Touching (Loads at len) }
        ensures { MovesBy (make_touch self.old.image self.old.frame (Loads at len)) self.old result self.new }
    {
        let word = if len == 1 {
            words::get1(self.sandbox.as_slice(), at)
        } else {
            words::get4(self.sandbox.as_slice(), at)
        };
        self.phase = Phase::Running;
        self.calls.push(0, word);
        self.calls.advance();
        Event::Touched {
            release: Release::Looked,
            seen: None,
        }
    }

    // Stores bytes in the sandbox's memory.
    fn make_store(&mut self, at: u32, bytes: Octets) -> Event
        requires going { self.old.over ≡ None }
        requires touches { self.old.doing ≡ Touching (Stores at bytes) }
        ensures { MovesBy (make_touch self.old.image self.old.frame (Stores at bytes)) self.old result self.new }
    {
        let start = at as usize;
        let slice = bytes.as_slice();
        self.sandbox[start..start + slice.len()].copy_from_slice(slice);
        self.phase = Phase::Running;
        self.calls.advance();
        Event::Touched {
            release: Release::Wrote { at, bytes },
            seen: None,
        }
    }

    // Gives the sandbox the turn, in a call of a tainted function.
    fn make_call(&mut self, import: u32, words: Words, place: Place) -> Event
        requires going { self.old.over ≡ None }
        requires touches { self.old.doing ≡ Touching (Passes import words place) }
        ensures { MovesBy (make_touch self.old.image self.old.frame (Passes import words place)) self.old result self.new }
    {
        self.calls.advance();
        self.phase = Phase::Suspended { import, place };
        Event::Touched {
            release: Release::Passed {
                fun: import,
                args: words,
            },
            seen: Some(Seen::Called {
                fun: import,
                args: words,
            }),
        }
    }

    // Gives the sandbox the turn, with the reply of a callback.
    fn make_reply(&mut self, value: u32) -> Event
        requires going { self.old.over ≡ None }
        requires touches { self.old.doing ≡ Touching (Replies value) }
        ensures { MovesBy (make_touch self.old.image self.old.frame (Replies value)) self.old result self.new }
    {
        if let Some(
            Link::CallsBack {
                callback: _,
                import,
                place,
            },
        ) = self.calls.link()
        {
            self.calls.leave();
            self.depth -= 2;
            self.phase = Phase::Suspended { import, place };
        }
        Event::Touched {
            release: Release::Replied { value },
            seen: Some(Seen::Replied { value }),
        }
    }

    /// Shows the sandbox bytes of its memory.
    pub fn show(&mut self, at: u32, len: u32) -> Event
        requires going { self.old.over ≡ None }
        requires few { len ≤ 64 }
        ensures { MovesBy (λ s. moved_if (shown at len s.world) s) self.old result self.new }
    {
        match self.octets(at, len) {
            Some(bytes) => Event::Showed {
                seen: Seen::Bytes { at, bytes },
            },
            None => self.stop_by_act(Code::S4),
        }
    }

    // The bytes of the sandbox's memory from a place on, if they lie in it.
    fn octets(&self, at: u32, len: u32) -> Option<Octets>
        requires { len ≤ 64 }
        ensures { result ≡ bytes_if (lies_in at len self.now.sandbox) at len self.now.sandbox }
    {
        if !limits::lie_in(at, len as usize, self.sandbox.len()) {
            return None;
        }
        let at = at as usize;
        Octets::from_slice(&self.sandbox[at..at + len as usize])
    }

    /// Stores bytes in the sandbox's memory.
    pub fn write(&mut self, at: u32, bytes: &[u8]) -> Event
        requires going { self.old.over ≡ None }
        requires few { length bytes.now ≤ 64 }
        ensures { MovesBy (λ s. moved_if (written at bytes.now s.world) s) self.old result self.new }
    {
        if !limits::lie_in(at, bytes.len(), self.sandbox.len()) {
            return self.stop_by_act(Code::S4);
        }
        let at = at as usize;
        self.sandbox[at..at + bytes.len()].copy_from_slice(bytes);
        Event::Ran
    }

    /// Ends the run by the act that was taken last.
    pub fn stop_by_act(&mut self, code: Code) -> Event
        ensures ends { EndsBy self.old (Ending.Stop code (Some self.old.taken)) result self.new }
        ensures line { MovesBy (λ s. Over (stopped_by_act code s.world) s) self.old result self.new }
    {
        self.end_move(limits::stop_by_act(code, self.taken))
    }

    /// Ends the run by an act, or where none is left.
    pub fn end_move(&mut self, ending: Ending) -> Event
        ensures ends { EndsBy self.old ending result self.new }
        ensures line { MovesBy (Over ending) self.old result self.new }
        ensures step { EventBy (Over ending) self.old result self.new }
    {
        self.over = Some(ending);
        Event::Ended { ending }
    }

    /// Takes the reply of a tainted function, and goes on with it (C9).
    pub fn answer(&mut self, value: u32) -> Event
        requires going { self.old.over ≡ None }
        requires suspended { IsSuspended self.old.doing }
        ensures { MovesBy (λ s. answer self.old.image s.callers value (in_world (in_turn turns.Trusted s.world) s)) self.old result self.new }
    {
        let Phase::Suspended { import, place } = self.phase else {
            return Event::Ran;
        };
        let tainted = self.image.imports().get(import as usize);
        self.phase = Phase::Running;
        match tainted {
            Some(tainted) => self.take_reply(tainted.result(), place, value),
            None => self.end_move(WILD),
        }
    }

    // Takes the reply of a tainted function that has such a result.
    #[tactic(auto, using(std::proofs::lemmas::Bool::Decides::nat_tests))]
    fn take_reply(&mut self, kind: WordKind, place: Place, value: u32) -> Event
        requires going { self.old.over ≡ None }
        requires runs { self.old.doing ≡ Running }
        ensures { (f : FuncData) → IsIn self.old f
            → MovesBy
            (λ s. reply_if (fits_kind kind value) self.old.image self.old.frame place kind value (record s { control = Away }))
            self.old result self.new }
    {
        let Ok(word) = unpack_reply(kind, value) else {
            return self.end_move(Ending::Check {
                code: Code::C9,
                place,
            });
        };
        if let WordKind::Void = kind {
            return Event::Ran;
        }
        if !self.push_word(word) {
            return self.end_move(WILD);
        }
        Event::Ran
    }

    // Pushes a word if there is room for it, and tells whether there is. If not, all stays.
    pub(crate) fn push_word(&mut self, word: u32) -> bool
        requires { self.old.doing ≡ Running }
        ensures { (f : FuncData) → IsIn self.old f
            → HasPushed (nat_lt (length self.old.frame.stack) f.stack) word self.old result self.new }
    {
        self.calls.push(0, word)
    }
}

// Running an image over flat memory.

ghost use Rattle.std.specs.Prelude.{◌≡◌, ◌+◌, ◌-◌, ◌^◌, ◌<◌, ◌≤◌, ◌⊎◌, length, drop, IfOk, IfSome, IsTrue, None, Some, is_some, slice_get};
ghost use Rattle.std.specs.Option.{option_copied};
ghost use Rattle.trusted_memory.specs.Memories.{byte_of};
ghost use Rattle.code_words.specs.Fitting.{Fits};
ghost use Rattle.code_words.specs.Paced.{is_paced};
ghost use Rattle.code_words.specs.Functions.{Func as FuncData};
ghost use Rattle.code_words.specs.Table.{Over, wild, pop, pop_2, on_with, push, push_some, jump, load, store};
ghost use Rattle.two_memory_machine_states.specs.Machines.{IsStart, waiting_of, turn_of, next_op_of, with_one, HasNumber, TakesEnd, ending_given, moves_left, block_of};
ghost use Rattle.two_memory_machine_states.specs.Steps.{GoesBy, IsIn, Acts, IsGivenTo, IsReady, StopsBy, event_of, two_topmost, four_topmost, five_topmost, seven_topmost, top_words_of};

use crate::acts::SANDBOX_ENDED;
use crate::event::{Event, Waiting};
use crate::outcome::Outcome;
use act_words::act::Turn;
use act_words::ending::Ending;
use act_words::row::{Octets, Words};
use act_words::settings::Settings;
use ckc_text::code::Code;
use ckc_text::fault::NoMemory;
use ckc_text::place::Place;
use code_words::image::Image;
use code_words::op::Op;
use flat_bytes::blocks::FIRST_OFFSET;
use marshalling::arguments::pack;
use std::alloc::Global;
use std::marker::Model;
use trusted_memory::memory::Trusted;
use two_memory_machine_memory::blocks::BlockRow;
use two_memory_machine_memory::calls::CallWords;
use two_memory_machine_memory::memory;

/// A touch whose acts are still to be taken.
#[derive(Clone, Copy)]
pub(crate) enum Pending {
    Loads {
        at: u32,
        len: u32,
    },
    Stores {
        at: u32,
        bytes: Octets,
    },
    Passes {
        import: u32,
        words: Words,
        place: Place,
    },
    Replies {
        value: u32,
    },
}

/// What the innermost open call of the trusted side does.
#[derive(Clone, Copy)]
pub(crate) enum Phase {
    Running,
    NeedsNumber,
    HasNumber { number: i32 },
    Touching { touch: Pending },
    Suspended { import: u32, place: Place },
}

/// A run of an image: its memories, its open calls, and its ending once it is over. It is for the crates that make up the
/// machine: all others call the `Machine` of `two_memory_machine`.
#[derive(Drop)]
pub struct RunningImage<'a> {
    pub(crate) image: &'a Image,
    pub(crate) settings: Settings,
    pub(crate) memory: Trusted,
    // The blocks of trusted memory, of which the first `made` are there.
    pub(crate) blocks: Vec<BlockRow>,
    pub(crate) made: usize,
    // Where the static blocks of both memories stand.
    pub(crate) addresses: Vec<u32>,
    pub(crate) offsets: Vec<u32>,
    pub(crate) calls: CallWords<'a>,
    pub(crate) phase: Phase,
    // How many calls are open, but for that of a tainted function.
    pub(crate) depth: u32,
    pub(crate) sandbox: Vec<u8>,
    // The offset of the next block of the sandbox's memory.
    pub(crate) room: u32,
    // How many acts were taken, and how many ticks spent.
    pub(crate) taken: u64,
    pub(crate) ticks: u32,
    pub(crate) over: Option<Ending>,
}

impl<'a> Model for RunningImage<'a> {
    ghost use Rattle.two_memory_machine_states.specs.Machines.{Machine};

    ghost Value = { Machine };

    ghost use Rattle.two_memory_machine_states.specs.Insides.{machine, IsConsistent};

    ghost view = { machine };

    ghost invariant = { IsConsistent };
}

impl<'a> RunningImage<'a> {
    /// Starts an image, and takes all the memory that its run needs.
    pub fn start(
        alloc: Global,
        image: &'a Image,
        settings: &Settings,
    ) -> Result<RunningImage<'a>, NoMemory>
        requires { Fits image.now settings.now }
        ensures { IfOk result (λ m. IsStart image.now settings.now m) }
    {
        let blocks = image.trusted_blocks();
        let statics = image.sandbox_blocks();
        let function = image.main().unwrap();
        let bytes = memory::memory_with(alloc, settings.trusted, blocks)?;
        let counter = memory::counter_of(blocks);
        Ok(RunningImage {
            image,
            settings: *settings,
            memory: Trusted::from_bytes(bytes, settings.base, counter),
            blocks: memory::rows_with(alloc, settings.trusted, blocks)?,
            made: blocks.len(),
            addresses: memory::offsets_with(alloc, settings.base + FIRST_OFFSET, blocks)?,
            offsets: memory::offsets_with(alloc, FIRST_OFFSET, statics)?,
            calls: CallWords::start(alloc, image.functions(), function)?,
            phase: Phase::Running,
            depth: 1,
            sandbox: memory::memory_with(alloc, settings.sandbox, statics)?,
            room: memory::counter_of(statics),
            taken: 0,
            ticks: 0,
            over: None,
        })
    }

    /// What the machine waits for.
    #[inline]
    pub fn waiting(&self) -> Waiting
        ensures { result ≡ waiting_of self.now }
    {
        if self.over.is_some() {
            return Waiting::Over;
        }
        match &self.phase {
            Phase::Running | Phase::HasNumber { number: _ } => Waiting::Runs,
            Phase::NeedsNumber => Waiting::Number,
            Phase::Touching { touch: _ }
            | Phase::Suspended {
                import: _,
                place: _,
            } => Waiting::Act,
        }
    }

    /// Who has the turn.
    #[inline]
    pub fn turn(&self) -> Turn
        ensures { result ≡ turn_of self.now.doing }
    {
        match self.phase {
            Phase::Running
            | Phase::NeedsNumber
            | Phase::HasNumber { number: _ }
            | Phase::Touching { touch: _ } => Turn::Trusted,
            Phase::Suspended {
                import: _,
                place: _,
            } => Turn::Sandbox,
        }
    }

    /// Counts an act that is taken. Each loop of the image spends a tick.
    pub fn count_act(&mut self)
        ensures counts { self.new ≡ with_one self.old }
        ensures paced { IsTrue (is_paced self.old.image) }
    {
        self.taken = self.taken.saturating_add(1);
    }

    /// How many ticks were spent.
    #[inline]
    pub fn ticks(&self) -> u32
        ensures { result ≡ self.now.ticks }
    {
        self.ticks
    }

    /// How many ticks may be spent.
    #[inline]
    pub fn budget(&self) -> u32
        ensures { result ≡ self.now.settings.budget }
    {
        self.settings.budget
    }

    /// Sets how many ticks were spent.
    #[inline]
    pub fn set_ticks(&mut self, ticks: u32)
        requires { ticks ≤ self.old.settings.budget }
        ensures { self.new ≡ record self.old { ticks = ticks } }
    {
        self.ticks = ticks;
    }

    /// Goes on where no act is left.
    pub fn no_more_acts(&mut self) -> Event
        requires { waiting_of self.old ≡ Waiting.Act }
        ensures takes { TakesEnd self.old result self.new }
        ensures over { self.new.over ≡ ending_given result }
        ensures sooner { moves_left self.new < moves_left self.old }
    {
        match self.phase {
            Phase::Touching { touch: _ } => self.make_touch(),
            Phase::Suspended {
                import: _,
                place: _,
            } => self.end_move(SANDBOX_ENDED),
            Phase::Running | Phase::NeedsNumber | Phase::HasNumber { number: _ } => Event::Ran,
        }
    }

    /// Gives the input number that the next instruction waits for, and 0 where none is left. The next step takes it.
    pub fn give(&mut self, number: i32)
        requires { waiting_of self.old ≡ Waiting.Number }
        ensures given { self.new ≡ record self.old { doing = HasNumber number } }
        ensures runs { waiting_of self.new ≡ Waiting.Runs }
        ensures sooner { moves_left self.new < moves_left self.old }
    {
        self.phase = Phase::HasNumber { number };
    }

    /// The address and the length of a block of trusted memory, or None past the last.
    pub fn block(&self, k: u32) -> Option<(u32, u32)>
        ensures block { result ≡ block_of self.now k }
        ensures before_end { IfSome result (λ _. k + 1 < 2 ^ 32) }
    {
        let block = self.blocks[..self.made].get(k as usize)?;
        Some(block.placed(self.settings.base))
    }

    /// The byte at an address of trusted memory, or None outside it.
    pub fn byte(&self, at: u32) -> Option<u8>
        ensures byte { result ≡ byte_of self.now.memory at }
        ensures before_end { IfSome result (λ _. at + 1 < 2 ^ 32) }
    {
        self.memory.byte(at)
    }

    /// How many bytes the sandbox's memory has.
    pub fn sandbox_size(&self) -> u32
        ensures { result ≡ length self.now.sandbox }
    {
        self.sandbox.len() as u32
    }

    /// The instruction that stands next, unless none does. Each loop of the image spends a tick.
    #[inline]
    pub fn op(&self) -> Option<&'a Op>
        ensures op { option_copied result ≡ next_op_of self.now }
        ensures within { IfSome result (λ _. self.now.frame.next + 1 < 2 ^ 64) }
        ensures given { IsGivenTo self.now.doing (next_op_of self.now) }
        ensures paced { IsTrue (is_paced self.now.image) }
    {
        self.calls.op()
    }

    /// What an instruction tells.
    #[inline]
    pub fn event(&self, outcome: Outcome) -> Event
        ensures { result ≡ event_of outcome self.now.over }
    {
        match (outcome, self.over) {
            (Outcome::Ran, _) | (Outcome::Ended, None) => Event::Ran,
            (Outcome::Asks, _) => Event::Asks,
            (Outcome::Ended, Some(ending)) => Event::Ended { ending },
        }
    }

    /// Pops a word into a slot.
    #[tactic(auto, using(std::proofs::lemmas::Bool::Decides::nat_tests))]
    #[inline(always)]
    pub fn set(&mut self, slot: u32) -> Outcome
        requires { IsReady self.old }
        ensures { Acts (Op.Set slot) self.old result self.new }
    {
        let Some(word) = self.word() else {
            return self.end_wild();
        };
        if !self.calls.set(slot, word) {
            return self.end_wild();
        }
        self.calls.pop(1);
        self.calls.advance();
        Outcome::Ran
    }

    /// Pushes the word of a slot.
    #[inline(always)]
    pub fn local(&mut self, slot: u32) -> Outcome
        requires { IsReady self.old }
        ensures { Acts (Op.Local slot) self.old result self.new }
    {
        let word = self.calls.slot(slot);
        self.push_some(word)
    }

    /// Pushes the address of a static block of trusted memory.
    #[inline(always)]
    pub fn block_address(&mut self, k: u32) -> Outcome
        requires { IsReady self.old }
        ensures { Acts (Op.BlockAddress k) self.old result self.new }
    {
        let address = self.addresses.get(k as usize).copied();
        self.push_some(address)
    }

    /// Pushes the offset of a static block of the sandbox's memory.
    pub fn block_offset(&mut self, k: u32) -> Outcome
        requires { IsReady self.old }
        ensures { Acts (Op.BlockOffset k) self.old result self.new }
    {
        let offset = self.offsets.get(k as usize).copied();
        self.push_some(offset)
    }

    /// Pops an address, and pushes the byte or the word there.
    #[inline(always)]
    pub fn load(&mut self, len: u32) -> Outcome
        requires ready { IsReady self.old }
        requires width { (len ≡ 1) ⊎ (len ≡ 4) }
        ensures { (f : FuncData) → IsIn self.old f
            → GoesBy (λ s. pop self.old.frame.stack (λ address stack. load f len address stack self.old.frame s) s) self.old result self.new }
    {
        let Some(address) = self.word() else {
            return self.end_wild();
        };
        if !self.memory.in_range(address, len) {
            return self.end_wild();
        }
        let word = self.memory.load(address, len);
        self.push(1, word)
    }

    /// Pops a value and an address, and stores the lowest byte or all of the value there.
    #[tactic(auto, using(std::proofs::lemmas::Bool::Decides::nat_tests))]
    #[inline(always)]
    pub fn store(&mut self, len: u32) -> Outcome
        requires ready { IsReady self.old }
        requires width { (len ≡ 1) ⊎ (len ≡ 4) }
        ensures { GoesBy
            (λ s. pop_2 self.old.frame.stack (λ address w stack. store len address w stack self.old.frame s) s)
            self.old result self.new }
    {
        let Some((address, word)) = self.two_words() else {
            return self.end_wild();
        };
        if !self.memory.in_range(address, len) {
            return self.end_wild();
        }
        self.memory.store(address, len, word);
        self.calls.pop(2);
        self.calls.advance();
        Outcome::Ran
    }

    // Pushes what is there.
    #[inline(always)]
    pub(crate) fn push_some(&mut self, word: Option<u32>) -> Outcome
        requires { IsReady self.old }
        ensures { (f : FuncData) → IsIn self.old f
            → GoesBy (push_some f word self.old.frame.stack self.old.frame) self.old result self.new }
    {
        match word {
            Some(word) => self.push(0, word),
            None => self.end_wild(),
        }
    }

    /// Pops words, and goes on at an instruction of the same function.
    #[tactic(auto, using(std::proofs::lemmas::Bool::Decides::nat_tests))]
    #[inline(always)]
    pub fn jump(&mut self, popped: usize, target: u32) -> Outcome
        requires ready { IsReady self.old }
        requires there { popped ≤ length self.old.frame.stack }
        ensures { (f : FuncData) → IsIn self.old f
            → GoesBy (jump f target (drop popped self.old.frame.stack) self.old.frame) self.old result self.new }
    {
        if !self.calls.jump(target) {
            return self.end_wild();
        }
        self.calls.pop(popped);
        Outcome::Ran
    }

    /// Pops words, pushes a word if there is room for it then, and goes on to the next instruction.
    #[inline(always)]
    pub fn push(&mut self, popped: usize, word: u32) -> Outcome
        requires ready { IsReady self.old }
        requires there { popped ≤ length self.old.frame.stack }
        ensures { (f : FuncData) → IsIn self.old f
            → GoesBy (push f word (drop popped self.old.frame.stack) self.old.frame) self.old result self.new }
    {
        if !self.calls.push(popped, word) {
            return self.end_wild();
        }
        self.calls.advance();
        Outcome::Ran
    }

    /// Pops words, and goes on to the next instruction.
    #[inline(always)]
    pub fn go_on(&mut self, popped: usize) -> Outcome
        requires ready { IsReady self.old }
        requires there { popped ≤ length self.old.frame.stack }
        ensures { GoesBy (on_with self.old.frame (drop popped self.old.frame.stack)) self.old result self.new }
    {
        self.calls.pop(popped);
        self.calls.advance();
        Outcome::Ran
    }

    /// Ends the run, since no line of the table has a result.
    #[cold]
    #[inline(never)]
    pub fn end_wild(&mut self) -> Outcome
        ensures ends { StopsBy self.old (Ending.Stop Code.S6 None) result self.new }
        ensures line { GoesBy wild self.old result self.new }
    {
        self.end(Ending::Stop {
            code: Code::S6,
            act: None,
        })
    }

    /// Ends the run.
    #[cold]
    pub fn end(&mut self, ending: Ending) -> Outcome
        ensures ends { StopsBy self.old ending result self.new }
        ensures line { GoesBy (Over ending) self.old result self.new }
    {
        self.over = Some(ending);
        Outcome::Ended
    }

    /// The topmost word, if there is one.
    #[inline(always)]
    pub fn word(&self) -> Option<u32>
        ensures { result ≡ slice_get self.now.frame.stack 0 }
    {
        self.calls.word()
    }

    /// The two topmost words, the lower one first, if there are two.
    #[inline(always)]
    pub fn two_words(&self) -> Option<(u32, u32)>
        ensures { result ≡ two_topmost self.now.frame.stack }
    {
        match self.calls.stack() {
            [right, left, ..] => Some((*left, *right)),
            _ => None,
        }
    }

    /// The four topmost words, the lowest first, if there are four.
    pub fn four_words(&self) -> Option<(u32, u32, u32, u32)>
        ensures { result ≡ four_topmost self.now.frame.stack }
    {
        match self.calls.stack() {
            [d, c, b, a, ..] => Some((*a, *b, *c, *d)),
            _ => None,
        }
    }

    /// The five topmost words, the lowest first, if there are five.
    pub fn five_words(&self) -> Option<(u32, u32, u32, u32, u32)>
        ensures { result ≡ five_topmost self.now.frame.stack }
    {
        match self.calls.stack() {
            [e, d, c, b, a, ..] => Some((*a, *b, *c, *d, *e)),
            _ => None,
        }
    }

    /// The seven topmost words, the lowest first, if there are seven.
    pub fn seven_words(&self) -> Option<(u32, u32, u32, u32, u32, u32, u32)>
        ensures { result ≡ seven_topmost self.now.frame.stack }
    {
        match self.calls.stack() {
            [g, f, e, d, c, b, a, ..] => Some((*a, *b, *c, *d, *e, *f, *g)),
            _ => None,
        }
    }

    // So many of the topmost words, the last on top, if there are so many.
    pub(crate) fn top_words(&self, count: usize) -> Option<Words>
        requires { count ≤ 16 }
        ensures { result ≡ top_words_of count self.now.frame.stack }
    {
        let stack = self.calls.stack();
        if stack.len() < count {
            return None;
        }
        let mut words = [0; 16];
        let words = &mut words[..count];
        words.copy_from_slice(&stack[..count]);
        words.reverse();
        Some(pack(words))
    }
}

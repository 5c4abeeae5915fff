// Input, output, and blocks that are made while a program runs.

ghost use Rattle.std.specs.Prelude.{◌≡◌, ◌+◌, ◌*◌, ◌%◌, ◌^◌, ◌<◌, ◌≤◌, ◌∷◌, [], length, Some, None};
ghost use Rattle.act_words.specs.Numbers.{number_line};
ghost use Rattle.flat_bytes.specs.Blocks.{is_refused, counter_after};
ghost use Rattle.trusted_memory.specs.Memories.{made, address_made};
ghost use Rattle.act_words.specs.Touches.{offset_unless};
ghost use Rattle.code_words.specs.Table.{pop, allocate, blocks_made};
ghost use Rattle.code_words.specs.Functions.{Func as FuncData};
ghost use Rattle.two_memory_machine_states.specs.Machines.{HasNumber, Running, Steps, waiting_of, next_op_of, ending_given, TellsSomething};
ghost use Rattle.two_memory_machine_states.specs.Steps.{Acts, Tells, IsReady, IsIn, GoesBy};

use crate::event::{Event, Waiting};
use crate::outcome::Outcome;
use crate::running_image::{Phase, RunningImage};
use act_words::ending::Ending;
use act_words::row::Octets;
use ckc_text::code::Code;
use code_words::op::Op;
use flat_bytes::blocks;
use itoa::Buffer;
use two_memory_machine_memory::blocks::BlockRow;
use two_memory_machine_memory::limits::WILD;
use two_memory_machine_memory::texts;
use two_memory_machine_memory::texts::TextEnd;

/// The line of a number: its digits, and a line feed.
fn line_of(number: i32) -> Octets
    ensures { result ≡ number_line number }
{
    let mut buffer = Buffer::new();
    let text = buffer.format(number).as_bytes();
    let len = text.len();
    let mut line = [b'\n'; 64];
    line[..len].copy_from_slice(text);
    Octets::from_slice(&line[..len + 1]).unwrap()
}

/// One byte.
fn byte_of(word: u32) -> Octets
    ensures { result ≡ (word % 256) ∷ [] }
{
    Octets::from_slice(&[(word % 256) as u8]).unwrap()
}

impl<'a> RunningImage<'a> {
    /// Pops a number, and writes its line.
    pub fn print(&mut self) -> Event
        requires { IsReady self.old }
        ensures line { Tells Op.Print self.old result self.new }
        ensures told { TellsSomething result }
    {
        let Some(word) = self.word() else {
            return self.end_move(WILD);
        };
        let bytes = line_of(word.cast_signed());
        self.calls.pop(1);
        self.calls.advance();
        Event::Out { bytes }
    }

    /// Pops a word, and writes its lowest byte.
    pub fn put_byte(&mut self) -> Event
        requires { IsReady self.old }
        ensures line { Tells Op.PutByte self.old result self.new }
        ensures told { TellsSomething result }
    {
        let Some(word) = self.word() else {
            return self.end_move(WILD);
        };
        let bytes = byte_of(word);
        self.calls.pop(1);
        self.calls.advance();
        Event::Out { bytes }
    }

    /// Takes the input number that was given, or waits for one.
    pub fn next_input(&mut self) -> Event
        requires waits { waiting_of self.old ≡ Waiting.Runs }
        requires there { next_op_of self.old ≡ Some Op.NextInput }
        requires next_fits { self.old.frame.next + 1 < 2 ^ 64 }
        ensures steps { Steps self.old result self.new }
        ensures over { self.new.over ≡ ending_given result }
        ensures told { self.old.doing ≡ Running → TellsSomething result }
    {
        if let Phase::HasNumber { number } = self.phase {
            return self.take_number(number);
        }
        self.phase = Phase::NeedsNumber;
        Event::Input
    }

    // Pushes the number that was given.
    fn take_number(&mut self, number: i32) -> Event
        requires going { self.old.over ≡ None }
        requires given { self.old.doing ≡ HasNumber number }
        requires there { next_op_of self.old ≡ Some Op.NextInput }
        requires next_fits { self.old.frame.next + 1 < 2 ^ 64 }
        ensures steps { Steps self.old result self.new }
        ensures over { self.new.over ≡ ending_given result }
    {
        self.phase = Phase::Running;
        let outcome = self.push(0, number.cast_unsigned());
        self.event(outcome)
    }

    /// Pops a count, and pushes the address of a block of so many elements and some more, or 0 where there are none.
    pub fn allocate(&mut self, size: u32, more: u32) -> Outcome
        requires ready { IsReady self.old }
        requires few { more ≤ 1 }
        ensures { (f : FuncData) → IsIn self.old f
            → GoesBy (λ s. pop self.old.frame.stack (λ n stack. allocate f size more n stack self.old.frame s) s) self.old result self.new }
    {
        let Some(count) = self.word() else {
            return self.end_wild();
        };
        if count.cast_signed() <= 0 {
            return self.push(1, 0);
        }
        let address = self.make_block(byte_count(count, more, size));
        self.push(1, address)
    }

    // Makes a block of trusted memory, and gives its address, or 0 where it is refused.
    fn make_block(&mut self, bytes: u64) -> u32
        ensures address { result ≡ address_made self.old.memory bytes }
        ensures after { self.new
            ≡ record self.old { memory = made self.old.memory bytes; blocks = blocks_made self.old.memory self.old.blocks bytes } }
    {
        if bytes > u64::from(self.memory.size()) {
            return 0;
        }
        let bytes = bytes as u32;
        let offset = self.memory.counter();
        let address = self.memory.make(bytes);
        if address != 0 {
            self.blocks[self.made] = BlockRow { offset, bytes };
            self.made += 1;
        }
        address
    }

    /// Pops a count, and pushes the offset of a block of the sandbox's memory of so many elements, or 0 where there are none.
    pub fn sandbox_alloc(&mut self, size: u32) -> Outcome
        requires { IsReady self.old }
        ensures { Acts (Op.SandboxAlloc size) self.old result self.new }
    {
        let Some(count) = self.word() else {
            return self.end_wild();
        };
        if count.cast_signed() <= 0 {
            return self.push(1, 0);
        }
        let offset = self.make_sandbox_block(byte_count(count, 0, size));
        self.push(1, offset)
    }

    /// Pops an address, and pushes how many bytes stand before the first 0 from there; each spends a tick (S1).
    pub fn text_length(&mut self) -> Outcome
        requires { IsReady self.old }
        ensures { Acts Op.TextLength self.old result self.new }
    {
        let Some(start) = self.word() else {
            return self.end_wild();
        };
        let walk = texts::walk_text(&self.memory, start, self.ticks, self.settings.budget);
        let spent = self.ticks + walk.count;
        if let TextEnd::NoTick = walk.end {
            self.set_ticks(spent);
            return self.end(Ending::Stop {
                code: Code::S1,
                act: None,
            });
        }
        self.set_ticks(spent + 1);
        match walk.end {
            TextEnd::Zero => self.push(1, walk.count),
            TextEnd::Outside | TextEnd::NoTick => self.end_wild(),
        }
    }

    // Makes a block of the sandbox's memory, and gives its offset, or 0 where it is refused.
    fn make_sandbox_block(&mut self, bytes: u64) -> u32
        requires { bytes < 2 ^ 63 }
        ensures offset { result ≡ offset_unless (is_refused (length self.old.sandbox) self.old.room bytes) self.old.room }
        ensures after { self.new ≡ record self.old { room = counter_after (length self.old.sandbox) self.old.room bytes } }
    {
        let grown = blocks::grown(u64::from(self.room), bytes);
        if bytes == 0 || grown > self.sandbox.len() as u64 {
            return 0;
        }
        let offset = self.room;
        self.room = grown as u32;
        offset
    }
}

/// How many bytes so many elements and some more have.
fn byte_count(count: u32, more: u32, size: u32) -> u64
    requires few { count + more ≤ 2 ^ 31 }
    ensures bytes { result ≡ (count + more) * size }
    ensures small { result < 2 ^ 63 }
{
    (u64::from(count) + u64::from(more)) * u64::from(size)
}

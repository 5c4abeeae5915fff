// A machine and its calls. What is inside it is a matter of the crates below.

ghost use Rattle.std.specs.Prelude.{◌≡◌, ◌+◌, ◌^◌, ◌<◌, IfOk, IfSome};
ghost use Rattle.act_words.specs.Acts.{act_view};
ghost use Rattle.trusted_memory.specs.Memories.{byte_of};
ghost use Rattle.code_words.specs.Fitting.{Fits};
ghost use Rattle.two_memory_machine_states.specs.Machines.{IsStart, waiting_of, turn_of, HasNumber, Steps, TakesAct, TakesEnd, Sooner, TellsSomething, ending_given, moves_left, block_of};
ghost use Rattle.two_memory_machine.specs.Running.{StepsOn};

use crate::{acts, running};
use act_words::act::{Act, Turn};
use act_words::settings::Settings;
use ckc_text::fault::NoMemory;
use code_words::image::Image;
use std::alloc::Global;
use std::marker::Model;
use two_memory_machine_states::event::{Event, Waiting};
use two_memory_machine_states::running_image::RunningImage;

/// A machine: an image that runs over a trusted memory and a sandbox's.
#[derive(Drop)]
pub struct Machine<'a> {
    running: RunningImage<'a>,
}

impl<'a> Model for Machine<'a> {
    ghost use Rattle.two_memory_machine_states.specs.Machines.{Machine};

    ghost Value = { Machine };

    ghost view = { λ m. m.running };
}

impl<'a> Machine<'a> {
    /// Starts an image, and takes all the memory that its run needs.
    ///
    /// # Errors
    ///
    /// `NoMemory` where there is too little of it. No other call takes memory.
    pub fn start(
        alloc: Global,
        image: &'a Image,
        settings: &Settings,
    ) -> Result<Machine<'a>, NoMemory>
        requires { Fits image.now settings.now }
        ensures { IfOk result (λ m. IsStart image.now settings.now m) }
    {
        let running = RunningImage::start(alloc, image, settings)?;
        Ok(Machine { running })
    }

    /// What the machine waits for.
    #[inline]
    pub fn waiting(&self) -> Waiting
        ensures { result ≡ waiting_of self.now }
    {
        self.running.waiting()
    }

    /// Who has the turn.
    #[inline]
    pub fn turn(&self) -> Turn
        ensures { result ≡ turn_of self.now.doing }
    {
        self.running.turn()
    }

    /// Makes the next step.
    #[inline]
    pub fn step(&mut self) -> Event
        requires { waiting_of self.old ≡ Waiting.Runs }
        ensures steps { Steps self.old result self.new }
        ensures over { self.new.over ≡ ending_given result }
        ensures sooner { moves_left self.new < moves_left self.old }
    {
        running::step(&mut self.running)
    }

    /// Makes steps up to one that has to be told.
    #[inline]
    pub fn run_on(&mut self) -> Event
        requires { waiting_of self.old ≡ Waiting.Runs }
        ensures steps { StepsOn self.old result self.new }
        ensures over { self.new.over ≡ ending_given result }
        ensures told { TellsSomething result }
        ensures sooner { moves_left self.new < moves_left self.old }
    {
        running::run_on(&mut self.running)
    }

    /// Takes an act of the sandbox.
    #[inline]
    pub fn act(&mut self, act: &Act) -> Event
        requires { waiting_of self.old ≡ Waiting.Act }
        ensures takes { TakesAct self.old (act_view act.now) result self.new }
        ensures over { self.new.over ≡ ending_given result }
        ensures sooner { Sooner (act_view act.now) self.old self.new }
    {
        acts::act(&mut self.running, act)
    }

    /// Goes on where no act is left.
    #[inline]
    pub fn no_more_acts(&mut self) -> Event
        requires { waiting_of self.old ≡ Waiting.Act }
        ensures takes { TakesEnd self.old result self.new }
        ensures over { self.new.over ≡ ending_given result }
        ensures sooner { moves_left self.new < moves_left self.old }
    {
        self.running.no_more_acts()
    }

    /// Gives the input number that the next instruction waits for, and 0 where none is left. The next step takes it.
    #[inline]
    pub fn give(&mut self, number: i32)
        requires { waiting_of self.old ≡ Waiting.Number }
        ensures given { self.new ≡ record self.old { doing = HasNumber number } }
        ensures runs { waiting_of self.new ≡ Waiting.Runs }
        ensures sooner { moves_left self.new < moves_left self.old }
    {
        self.running.give(number);
    }

    /// The address and the length of a block of trusted memory, or None past the last.
    pub fn block(&self, k: u32) -> Option<(u32, u32)>
        ensures block { result ≡ block_of self.now k }
        ensures before_end { IfSome result (λ _. k + 1 < 2 ^ 32) }
    {
        self.running.block(k)
    }

    /// The byte at an address of trusted memory, or None outside it.
    #[inline]
    pub fn byte(&self, at: u32) -> Option<u8>
        ensures byte { result ≡ byte_of self.now.memory at }
        ensures before_end { IfSome result (λ _. at + 1 < 2 ^ 32) }
    {
        self.running.byte(at)
    }
}

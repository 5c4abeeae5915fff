// A run in play: its machine, the text so far, and what the actor has to be told.

ghost use Rattle.std.specs.Prelude.{◌≡◌, ◌<◌, List, None, true, false, IfOk, OnOk, []};
ghost use Rattle.std.proofs.Common.{ℤ};
ghost use Rattle.act_words.specs.declared.settings.Settings.{Settings as SettingsData};
ghost use Rattle.act_words.specs.Acts.{act_view};
ghost use Rattle.code_words.specs.declared.image.Image.{Image as ImageData};
ghost use Rattle.code_words.specs.Fitting.{Fits};
ghost use Rattle.code_words.specs.Left.{LeavesTurn};
ghost use Rattle.two_memory_machine.specs.Machines.{IsStart, waiting_of, turn_of};
ghost use Rattle.run_core.specs.Texts.{dump_text};
ghost use Rattle.run_core.specs.Asked.{AskAnswers, AskLowers, PlayCounts};
ghost use Rattle.run_core.specs.Inputs.{TakesInput};
ghost use Rattle.run_core.specs.Progress.{Played, PlayGoes, PlayEnds, IsAsked, Steps, Takes, TakesNone, Tells, NearsBy, Nears, FallsUnless, IsOnward, ending_in, moment_in, blocks_of};

use crate::ask::ask;
use crate::dump::add_blocks;
use crate::fault::RunFault;
use crate::input::next_input;
use crate::touch::touch;
use crate::transcript;
use act_words::act::{Act, Seen, Turn};
use act_words::ending::Ending;
use act_words::settings::Settings;
use ckc_io::shelf::Shelf;
use ckc_text::fault::NoMemory;
use code_words::image::Image;
use sandbox_actor::actor::{Actor, Now};
use std::alloc::Global;
use two_memory_machine::event::{Event, Waiting};
use two_memory_machine::machine::Machine;

/// A run so far.
#[derive(Drop)]
pub struct Play<'a> {
    machine: Machine<'a>,
    settings: Settings,
    // The input numbers that are left.
    inputs: &'a [i32],
    /// The lines of what happened.
    pub text: Vec<u8>,
    // What the sandbox was shown last.
    last: Option<Seen>,
    // Whether the actor has ended. It isn't asked again then.
    ended: bool,
}

/// How far an act led.
#[derive(Clone, Copy)]
pub enum Progressed {
    /// The same side has the turn, and waits for the next act.
    Stays,
    /// The run goes on.
    Moves,
    /// The run is over.
    Ends { ending: Ending },
}

// Whether an act leaves the turn, and makes no touch.
fn leaves_turn(act: &Act, turn: Turn) -> bool
    ensures leaves { result ≡ true → LeavesTurn (act_view act.now) turn }
    ensures not { result ≡ false → LeavesTurn (act_view act.now) turn → ⊥ }
{
    match act {
        Act::Go => match turn {
            Turn::Trusted => false,
            Turn::Sandbox => true,
        },
        Act::Read { at: _, len: _ } | Act::Write { at: _, bytes: _ } => true,
        Act::Call { fun: _, args: _ } | Act::Return { value: _ } | Act::Stop => false,
    }
}

impl<'a> Play<'a> {
    /// Before the first step.
    pub fn start(
        alloc: Global,
        image: &'a Image,
        settings: &Settings,
        inputs: &'a [i32],
    ) -> Result<Play<'a>, NoMemory>
        requires { Fits image.now settings.now }
        ensures machine { IfOk result (λ p. IsStart image.now settings.now p.machine) }
        ensures settings { IfOk result (λ p. p.settings ≡ settings.now) }
        ensures inputs { IfOk result (λ p. p.inputs.now ≡ inputs.now) }
        ensures text { IfOk result (λ p. p.text.items ≡ []) }
        ensures last { IfOk result (λ p. p.last ≡ None) }
        ensures ended { IfOk result (λ p. p.ended ≡ false) }
    {
        Ok(Play {
            machine: Machine::start(alloc, image, settings)?,
            settings: *settings,
            inputs,
            text: Vec::new(alloc),
            last: None,
            ended: false,
        })
    }

    /// Runs the image to its end, with the sandbox's acts from an actor.
    pub fn to_end<A: Actor, F: Shelf>(
        &mut self,
        alloc: Global,
        actor: &mut A,
        shelf: &mut F,
    ) -> Result<Ending, RunFault>
        requires { self.old.machine.over ≡ None }
        ensures ends { (image : ImageData) (settings : SettingsData) (inputs : List ℤ) (first : A.State)
            → Played A.answers (F.files shelf.old) image settings inputs first (A.state_of actor.old) self.old
            → PlayEnds A.answers (F.files shelf.old) image settings inputs first (A.state_of actor.new)
            self.new.text.items (blocks_of self.new.machine) result }
        ensures settings { self.new.settings ≡ self.old.settings }
        ensures files { F.files shelf.new ≡ F.files shelf.old }
        ensures counts { PlayCounts result
            (F.misses shelf.old) (F.misses shelf.new) (F.faults shelf.old) (F.faults shelf.new) }
    {
        loop {
            if let Some(ending) = self.go_on(alloc, actor, shelf)? {
                return Ok(ending);
            }
        }
    }

    /// The lines of the last blocks, where they are asked for.
    pub fn last_blocks(&self, alloc: Global) -> Result<Vec<u8>, NoMemory>
        ensures { IfOk result (λ text. text.items ≡ dump_text self.now.settings (blocks_of self.now.machine)) }
    {
        let mut text = Vec::new(alloc);
        if self.settings.dump {
            add_blocks(alloc, &self.machine, &mut text)?;
        }
        Ok(text)
    }

    // Makes the steps of the next instructions, gives an input number, or takes the acts of a turn.
    fn go_on<A: Actor, F: Shelf>(
        &mut self,
        alloc: Global,
        actor: &mut A,
        shelf: &mut F,
    ) -> Result<Option<Ending>, RunFault>
        requires { self.old.machine.over ≡ None }
        ensures goes { (image : ImageData) (settings : SettingsData) (inputs : List ℤ) (first : A.State)
            → Played A.answers (F.files shelf.old) image settings inputs first (A.state_of actor.old) self.old
            → PlayGoes A.answers (F.files shelf.old) image settings inputs first (A.state_of actor.new) self.new result }
        ensures over { IfOk result (λ ending. self.new.machine.over ≡ ending) }
        ensures sooner { IfOk result (λ ending. FallsUnless ending self.old.machine self.new.machine) }
        ensures settings { self.new.settings ≡ self.old.settings }
        ensures files { F.files shelf.new ≡ F.files shelf.old }
        ensures counts { PlayCounts result
            (F.misses shelf.old) (F.misses shelf.new) (F.faults shelf.old) (F.faults shelf.new) }
    {
        match self.machine.waiting() {
            Waiting::Runs => Ok(self.step(alloc)?),
            Waiting::Number => Ok(self.give(alloc)?),
            Waiting::Act => self.take_turn(alloc, actor, shelf),
            Waiting::Over => unreachable!(),
        }
    }

    // Makes steps, and tells what the last of them did.
    fn step(&mut self, alloc: Global) -> Result<Option<Ending>, NoMemory>
        requires { waiting_of self.old.machine ≡ Waiting.Runs }
        ensures steps { OnOk result (Steps self.old self.new) }
        ensures over { IfOk result (λ ending. self.new.machine.over ≡ ending) }
        ensures sooner { IfOk result (λ ending. FallsUnless ending self.old.machine self.new.machine) }
        ensures settings { self.new.settings ≡ self.old.settings }
    {
        let event = self.machine.run_on();
        self.tell(alloc, &event)?;
        Ok(event.ending())
    }

    // Gives the machine the number that it waits for, which it takes, and makes steps on. `run_on` is the one way to make them here, so
    // that all of it stands in one loop.
    fn give(&mut self, alloc: Global) -> Result<Option<Ending>, NoMemory>
        requires { waiting_of self.old.machine ≡ Waiting.Number }
        ensures steps { OnOk result (Steps self.old self.new) }
        ensures over { IfOk result (λ ending. self.new.machine.over ≡ ending) }
        ensures sooner { IfOk result (λ ending. FallsUnless ending self.old.machine self.new.machine) }
        ensures settings { self.new.settings ≡ self.old.settings }
    {
        let number = self.next_input();
        self.machine.give(number);
        let event = self.machine.run_on();
        self.tell(alloc, &event)?;
        Ok(event.ending())
    }

    // The next input number, and 0 behind the last.
    fn next_input(&mut self) -> i32
        ensures number { TakesInput self.old.inputs.now result self.new.inputs.now }
        ensures rest { self.new ≡ record self.old { inputs = self.new.inputs } }
    {
        let (number, left) = next_input(self.inputs);
        self.inputs = left;
        number
    }

    // Takes acts until the side that has the turn loses it, or the run ends.
    fn take_turn<A: Actor, F: Shelf>(
        &mut self,
        alloc: Global,
        actor: &mut A,
        shelf: &mut F,
    ) -> Result<Option<Ending>, RunFault>
        requires { IsAsked self.old.machine }
        ensures goes { (image : ImageData) (settings : SettingsData) (inputs : List ℤ) (first : A.State)
            → Played A.answers (F.files shelf.old) image settings inputs first (A.state_of actor.old) self.old
            → PlayGoes A.answers (F.files shelf.old) image settings inputs first (A.state_of actor.new) self.new result }
        ensures over { IfOk result (λ ending. self.new.machine.over ≡ ending) }
        ensures sooner { IfOk result (λ ending. FallsUnless ending self.old.machine self.new.machine) }
        ensures settings { self.new.settings ≡ self.old.settings }
        ensures files { F.files shelf.new ≡ F.files shelf.old }
        ensures counts { PlayCounts result
            (F.misses shelf.old) (F.misses shelf.new) (F.faults shelf.old) (F.faults shelf.new) }
    {
        'turn: loop {
            let progressed = self.take_next(alloc, actor, shelf)?;
            match progressed {
                Progressed::Stays => {}
                Progressed::Moves => return Ok(None),
                Progressed::Ends { ending } => return Ok(Some(ending)),
            }
        }
    }

    // Takes the next act, or goes on without one where none is left.
    fn take_next<A: Actor, F: Shelf>(
        &mut self,
        alloc: Global,
        actor: &mut A,
        shelf: &mut F,
    ) -> Result<Progressed, RunFault>
        requires { IsAsked self.old.machine }
        ensures goes { (image : ImageData) (settings : SettingsData) (inputs : List ℤ) (first : A.State)
            → Played A.answers (F.files shelf.old) image settings inputs first (A.state_of actor.old) self.old
            → PlayGoes A.answers (F.files shelf.old) image settings inputs first (A.state_of actor.new) self.new result }
        ensures over { IfOk result (λ progressed. self.new.machine.over ≡ ending_in progressed) }
        ensures nears { IfOk result (λ progressed. Nears progressed
            self.old.machine self.new.machine (A.measure actor.old) (A.measure actor.new)) }
        ensures settings { self.new.settings ≡ self.old.settings }
        ensures files { F.files shelf.new ≡ F.files shelf.old }
        ensures counts { PlayCounts result
            (F.misses shelf.old) (F.misses shelf.new) (F.faults shelf.old) (F.faults shelf.new) }
    {
        match self.ask(actor, shelf)? {
            Some(act) => Ok(self.take(alloc, &act)?),
            None => Ok(self.take_none(alloc)?),
        }
    }

    // Asks the actor for its next act, unless it has ended.
    fn ask<A: Actor, F: Shelf>(&self, actor: &mut A, shelf: &mut F) -> Result<Option<Act>, RunFault>
        ensures answer { AskAnswers A.answers (F.files shelf.old) (moment_in self.now) self.now.ended
            (A.state_of actor.old) (A.state_of actor.new) result }
        ensures lowers { AskLowers (turn_of self.now.machine.doing) result (A.measure actor.old) (A.measure actor.new) }
        ensures files { F.files shelf.new ≡ F.files shelf.old }
        ensures counts { PlayCounts result
            (F.misses shelf.old) (F.misses shelf.new) (F.faults shelf.old) (F.faults shelf.new) }
    {
        let turn = self.machine.turn();
        let last = self.last;
        ask(actor, shelf, self.ended, &Now { turn, last })
    }

    // Takes an act.
    fn take(&mut self, alloc: Global, act: &Act) -> Result<Progressed, NoMemory>
        requires { IsAsked self.old.machine }
        ensures takes { OnOk result (Takes (act_view act.now) self.old self.new) }
        ensures over { IfOk result (λ progressed. self.new.machine.over ≡ ending_in progressed) }
        ensures nears { IfOk result (λ progressed. NearsBy (act_view act.now) progressed self.old.machine self.new.machine) }
        ensures settings { self.new.settings ≡ self.old.settings }
    {
        let turn = self.machine.turn();
        let event = self.machine.act(act);
        self.tell(alloc, &event)?;
        if let Some(ending) = event.ending() {
            return Ok(Progressed::Ends { ending });
        }
        if leaves_turn(act, turn) && self.is_asked() {
            return Ok(Progressed::Stays);
        }
        Ok(Progressed::Moves)
    }

    // Whether the machine waits for an act.
    fn is_asked(&self) -> bool
        ensures asked { result ≡ true → IsAsked self.now.machine }
        ensures not { result ≡ false → IsAsked self.now.machine → ⊥ }
    {
        matches!(self.machine.waiting(), Waiting::Act)
    }

    // Goes on without an act, as from now on.
    fn take_none(&mut self, alloc: Global) -> Result<Progressed, NoMemory>
        requires { IsAsked self.old.machine }
        ensures takes { OnOk result (TakesNone self.old self.new) }
        ensures over { IfOk result (λ progressed. self.new.machine.over ≡ ending_in progressed) }
        ensures nears { IfOk result (λ progressed. FallsUnless (ending_in progressed) self.old.machine self.new.machine) }
        ensures moves { IfOk result (λ progressed. IsOnward progressed) }
        ensures settings { self.new.settings ≡ self.old.settings }
    {
        self.ended = true;
        let event = self.machine.no_more_acts();
        self.tell(alloc, &event)?;
        match event.ending() {
            Some(ending) => Ok(Progressed::Ends { ending }),
            None => Ok(Progressed::Moves),
        }
    }

    // Tells what happened.
    fn tell(&mut self, alloc: Global, event: &Event) -> Result<(), NoMemory>
        ensures machine { self.new.machine ≡ self.old.machine }
        ensures settings { self.new.settings ≡ self.old.settings }
        ensures inputs { self.new.inputs ≡ self.old.inputs }
        ensures ended { self.new.ended ≡ self.old.ended }
        ensures tells { OnOk result (Tells event.now self.old self.new) }
    {
        match event {
            Event::Out { bytes } => {
                transcript::write(alloc, &self.settings, bytes, &mut self.text)
            }
            Event::Showed { seen } => {
                transcript::show(alloc, &self.settings, seen, &mut self.text, &mut self.last)
            }
            Event::Touched { release, seen } => touch(
                alloc,
                &self.settings,
                release,
                seen,
                &mut self.text,
                &mut self.last,
            ),
            Event::Ran | Event::Asks | Event::Input | Event::Ended { ending: _ } => Ok(()),
        }
    }
}

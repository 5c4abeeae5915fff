// Instructions that touch the sandbox's memory.

ghost use Rattle.std.specs.Prelude.{◌≡◌, ◌%◌};
ghost use Rattle.std.specs.Int.{to_le_bytes, w8, w32};
ghost use Rattle.two_memory_machine_states.specs.Steps.{Acts, IsReady};

use act_words::row::Octets;
use code_words::op::Op;
use two_memory_machine_states::outcome::Outcome;
use two_memory_machine_states::running_image::RunningImage;

/// The lowest byte of a word.
fn low_byte(word: u32) -> Octets
    ensures { result ≡ to_le_bytes w8 (word % 256) }
{
    let byte = (word % 256) as u8;
    Octets::from_slice(&byte.to_le_bytes()).unwrap()
}

/// The bytes of a word, the lowest first.
fn word_bytes(word: u32) -> Octets
    ensures { result ≡ to_le_bytes w32 word }
{
    Octets::from_slice(&word.to_le_bytes()).unwrap()
}

/// A load of a byte waits.
pub fn touch_load_1(machine: &mut RunningImage) -> Outcome
    requires { IsReady machine.old }
    ensures { Acts Op.TouchLoad1 machine.old result machine.new }
{
    machine.touch_load(1)
}

/// A load of a word waits.
pub fn touch_load_4(machine: &mut RunningImage) -> Outcome
    requires { IsReady machine.old }
    ensures { Acts Op.TouchLoad4 machine.old result machine.new }
{
    machine.touch_load(4)
}

/// A store of a byte waits.
pub fn touch_store_1(machine: &mut RunningImage) -> Outcome
    requires { IsReady machine.old }
    ensures { Acts Op.TouchStore1 machine.old result machine.new }
{
    let Some((at, word)) = machine.two_words() else {
        return machine.end_wild();
    };
    machine.touch_store(at, low_byte(word))
}

/// A store of a word waits.
pub fn touch_store_4(machine: &mut RunningImage) -> Outcome
    requires { IsReady machine.old }
    ensures { Acts Op.TouchStore4 machine.old result machine.new }
{
    let Some((at, word)) = machine.two_words() else {
        return machine.end_wild();
    };
    machine.touch_store(at, word_bytes(word))
}

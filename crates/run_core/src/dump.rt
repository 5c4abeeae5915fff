// The last blocks of trusted memory, as lines.

ghost use Rattle.std.specs.Prelude.{◌≡◌, ◌-◌, ◌≤◌, ◌++◌, flat_map, take, drop, IfOk, OnOk};
ghost use Rattle.act_recorder.specs.Lines.{block_text};
ghost use Rattle.run_core.specs.Progress.{blocks_of};

use act_recorder::lines::block_line;
use ckc_text::fault::NoMemory;
use std::alloc::Global;
use two_memory_machine::machine::Machine;

/// Adds a line for each block of a machine's trusted memory, in the order in which they were made.
pub fn add_blocks(alloc: Global, machine: &Machine, text: &mut Vec<u8>) -> Result<(), NoMemory>
    ensures { OnOk result (text.new.items ≡ text.old.items ++ flat_map block_text (blocks_of machine.now)) }
{
    let mut k = 0;
    'adding: while let Some((address, len)) = machine.block(k) {
        let line = line_of(alloc, machine, address, len)?;
        text.extend_from_slice(&line)?;
        k += 1;
    }
    Ok(())
}

// The line of a block of a machine.
fn line_of(alloc: Global, machine: &Machine, address: u32, len: u32) -> Result<Vec<u8>, NoMemory>
    requires { machine.now.memory.base ≤ address }
    ensures { IfOk result (λ line. line.items ≡ block_text (record
        { address = address; bytes = take len (drop (address - machine.now.memory.base) machine.now.memory.bytes) })) }
{
    let bytes = block_bytes(alloc, machine, address, len)?;
    block_line(alloc, address, bytes.as_slice())
}

// The bytes of trusted memory from an address on, as far as they are there.
fn block_bytes(
    alloc: Global,
    machine: &Machine,
    address: u32,
    len: u32,
) -> Result<Vec<u8>, NoMemory>
    requires { machine.now.memory.base ≤ address }
    ensures { IfOk result (λ bytes. bytes.items
        ≡ take len (drop (address - machine.now.memory.base) machine.now.memory.bytes)) }
{
    let mut bytes = Vec::new(alloc);
    let mut at = address;
    'reading: for _count in 0..len {
        let Some(byte) = machine.byte(at) else {
            return Ok(bytes);
        };
        bytes.push(byte)?;
        at += 1;
    }
    Ok(bytes)
}

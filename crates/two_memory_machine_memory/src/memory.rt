// The memories at the start of a run: static blocks in their places, with zeros between.

ghost use Rattle.std.specs.Prelude.{◌≡◌, ◌+◌, ◌-◌, ◌^◌, ◌<◌, ◌≤◌, ◌++◌, ◌*◌, All, length, map, take, replicate, vec_len, IfOk, OnOk};
ghost use Rattle.flat_bytes.specs.Blocks.{rounded_up, grown, first_offset, blocks_of};
ghost use Rattle.code_words.specs.Runs.{memory_of, counter_behind};
ghost use Rattle.two_memory_machine_memory.specs.Places.{offsets_from, block_row};

use crate::blocks::BlockRow;
use ckc_text::fault::NoMemory;
use ckc_text::listed::Listed;
use flat_bytes::blocks::{self, FIRST_OFFSET};
use std::alloc::Global;

/// A memory of a size in which the blocks stand, with zeros elsewhere.
pub fn memory_with(alloc: Global, size: u32, blocks: &[Listed<u8>]) -> Result<Vec<u8>, NoMemory>
    requires { counter_behind first_offset blocks.now ≤ size }
    ensures bytes { IfOk result (λ memory. memory.items ≡ memory_of size blocks.now) }
    ensures len { IfOk result (λ memory. vec_len memory ≡ size) }
{
    let mut memory = Vec::with_capacity(alloc, size as usize)?;
    memory.resize(FIRST_OFFSET as usize, 0)?;
    for block in blocks {
        place_block(&mut memory, block.as_slice())?;
    }
    memory.resize(size as usize, 0)?;
    Ok(memory)
}

/// Places a block at the end of a memory, and zeros behind it.
fn place_block(memory: &mut Vec<u8>, block: &[u8]) -> Result<(), NoMemory>
    requires { grown (vec_len memory.old) (length block.now) < 2 ^ 32 }
    ensures placed { OnOk result
        (memory.new.items
        ≡ memory.old.items ++ block.now
        ++ replicate (rounded_up (length block.now) - length block.now + 16) 0) }
    ensures len { OnOk result (vec_len memory.new ≡ grown (vec_len memory.old) (length block.now)) }
{
    let end = blocks::grown(memory.len() as u64, block.len() as u64) as usize;
    memory.extend_from_slice(block)?;
    memory.resize(end, 0)?;
    Ok(())
}

// The offset behind a block and its zeros.
fn next_offset(offset: u32, block: &[u8]) -> u32
    requires { grown offset (length block.now) < 2 ^ 32 }
    ensures { result ≡ grown offset (length block.now) }
{
    blocks::grown(u64::from(offset), block.len() as u64) as u32
}

/// Where the blocks stand, of which the first stands at an offset.
pub fn offsets_with(alloc: Global, first: u32, blocks: &[Listed<u8>]) -> Result<Vec<u32>, NoMemory>
    requires { counter_behind first blocks.now < 2 ^ 32 }
    ensures { IfOk result (λ offsets. offsets.items ≡ offsets_from first blocks.now) }
{
    let mut offsets = Vec::with_capacity(alloc, blocks.len())?;
    let mut offset = first;
    for block in blocks {
        offsets.push(offset)?;
        offset = next_offset(offset, block.as_slice());
    }
    Ok(offsets)
}

/// The blocks, and room behind them for all that a memory of a size can have.
pub fn rows_with(alloc: Global, size: u32, blocks: &[Listed<u8>]) -> Result<Vec<BlockRow>, NoMemory>
    requires fits { counter_behind first_offset blocks.now ≤ size }
    requires not_empty { All (λ block. 0 < length block) blocks.now }
    ensures len { IfOk result (λ rows. size ≤ 32 * length rows.items + 32) }
    ensures low { IfOk result (λ rows. All (λ r. r.offset ≤ size) rows.items) }
    ensures rows { IfOk result
        (λ rows. map block_row (take (length blocks.now) rows.items) ≡ blocks_of size (map length blocks.now)) }
{
    let empty = BlockRow {
        offset: 0,
        bytes: 0,
    };
    let mut rows = vec![in alloc; empty; size as usize / 32]?;
    let mut offset = FIRST_OFFSET;
    for (i, block) in blocks.iter().enumerate() {
        let block = block.as_slice();
        rows[i] = BlockRow {
            offset,
            bytes: block.len() as u32,
        };
        offset = next_offset(offset, block);
    }
    Ok(rows)
}

/// The offset behind all blocks.
pub fn counter_of(blocks: &[Listed<u8>]) -> u32
    requires { counter_behind first_offset blocks.now < 2 ^ 32 }
    ensures { result ≡ counter_behind first_offset blocks.now }
{
    let mut offset = FIRST_OFFSET;
    for block in blocks {
        offset = next_offset(offset, block.as_slice());
    }
    offset
}

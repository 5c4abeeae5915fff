// That blocks stand in order and apart.

ghost use Rattle.std.specs.Prelude.{◌≡◌, ℕ, ◌+◌, ◌%◌, ◌<◌, ◌≤◌, List, [], ◌∷◌, All, AllPairs, filter, map, nat_lt};
ghost use Rattle.flat_bytes.specs.Blocks.{blocks_of};
ghost use Rattle.trusted_memory.specs.Memories.{started, addresses_made};

/// Whatever blocks are asked for, those that a memory gives stand in the order in which they were asked for, with at
/// least 16 bytes between any two. Each has a byte, stands at a multiple of 16 and lies in the memory, with 16 bytes
/// before and behind it.
pub fn blocks_stand_apart()
    ensures apart { (size : ℕ) (asked : List ℕ)
        → AllPairs (λ a b. a.offset + a.bytes + 16 ≤ b.offset) (blocks_of size asked) }
    ensures aligned { (size : ℕ) (asked : List ℕ) → All (λ b. b.offset % 16 ≡ 0) (blocks_of size asked) }
    ensures inside { (size : ℕ) (asked : List ℕ)
        → All (λ b. (16 ≤ b.offset) × (b.offset + b.bytes + 16 ≤ size)) (blocks_of size asked) }
    ensures not_empty { (size : ℕ) (asked : List ℕ) → All (λ b. 0 < b.bytes) (blocks_of size asked) }
{}

/// The addresses that a memory answers, but for the zeros of its refusals, are those of these blocks.
pub fn blocks_are_answered()
    ensures { (size base : ℕ) (asked : List ℕ)
        → 0 < base
        → filter (λ address. nat_lt 0 address) (addresses_made (started size base) asked) ≡ map (λ b. base + b.offset) (blocks_of size asked) }
{}

/// Blocks of 4, 0, 17 and 65,472 bytes in a memory of 65,536: the second is empty, and the last has no room.
pub fn examples()
    ensures ordered { blocks_of 65536 (4 ∷ 0 ∷ 17 ∷ 65472 ∷ [])
        ≡ (record { offset = 16; bytes = 4 }) ∷ (record { offset = 48; bytes = 17 }) ∷ [] }
    ensures fits { blocks_of 65536 (65504 ∷ []) ≡ (record { offset = 16; bytes = 65504 }) ∷ [] }
    ensures too_large { blocks_of 65536 (65505 ∷ []) ≡ [] }
{}

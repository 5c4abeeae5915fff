// What is read after a write, for words of every width.

ghost use Rattle.std.specs.Prelude.{◌≡◌, ℕ, ◌+◌, ◌%◌, ◌^◌, ◌≤◌, ◌⊎◌, List, [], ◌∷◌, length, replicate};
ghost use Rattle.flat_bytes.specs.Words.{word_at, with_word};

/// A word that was stored is read again, modulo 256 to the power of its width. Words that share no byte with it are
/// read as before, and so is each other byte. The number of bytes stays.
pub fn reads_after_writes()
    ensures same { (w : ℕ) (bytes : List ℕ) (at v : ℕ) → at + w ≤ length bytes
        → word_at w (with_word w bytes at v) at ≡ v % 256 ^ w }
    ensures apart { (k w : ℕ) (bytes : List ℕ) (place at v : ℕ) → (place + k ≤ at) ⊎ (at + w ≤ place)
        → word_at k (with_word w bytes at v) place ≡ word_at k bytes place }
    ensures len { (w : ℕ) (bytes : List ℕ) (at v : ℕ) → length (with_word w bytes at v) ≡ length bytes }
{}

/// Words of zeros are zero.
pub fn zeros()
    ensures { (w n at : ℕ) → word_at w (replicate n 0) at ≡ 0 }
{}

/// The lowest byte stands first, at each width, and a store of one byte keeps the rest.
pub fn examples()
    ensures read { word_at 4 (9 ∷ 1 ∷ 2 ∷ 3 ∷ 4 ∷ []) 1 ≡ 0x04030201 }
    ensures read_byte { word_at 1 (9 ∷ 200 ∷ []) 1 ≡ 200 }
    ensures written { with_word 4 (9 ∷ 1 ∷ 2 ∷ 3 ∷ 4 ∷ 8 ∷ []) 1 0xfffefdfc ≡ 9 ∷ 252 ∷ 253 ∷ 254 ∷ 255 ∷ 8 ∷ [] }
    ensures written_byte { with_word 1 (9 ∷ 1 ∷ 2 ∷ []) 1 0x1234 ≡ 9 ∷ 0x34 ∷ 2 ∷ [] }
{}

// What holds of every layout, and layouts worked out by hand.

ghost use Rattle.std.specs.Prelude.{◌≡◌, ◌+◌, ◌%◌, ◌≤◌, List, [], ◌∷◌, All, AllPairs, None, replicate, ◌++◌};
ghost use Rattle.ckc_text.specs.declared.code.Code.TheVariants.{E08, E11, E27};
ghost use Rattle.pointer_modes.specs.declared.ctype.Mode.TheVariants.{Checked, Tainted};
ghost use Rattle.pointer_modes.specs.declared.ctype.Kind.TheVariants.{One, Array};
ghost use Rattle.pointer_modes.specs.Types.{CType, Int, Char, Struct, Pointer, Structure};
ghost use Rattle.pointer_modes.specs.Layout.{IsWidth, cells_of, size_of, alignment_of};
ghost use Rattle.pointer_modes.specs.Declaring.{members_fault};
ghost use Rattle.pointer_modes.specs.Examples.{consisting_of, cell, named, fault};

/// The cells of a type have 1 or 4 bytes each, stand at multiples of that, in order and apart, and lie within the
/// type's size. The size is a multiple of the alignment, which is 1 or 4 and no less than any cell.
pub fn cells_are_laid_out()
    ensures widths { (structs : List Structure) (t : CType) → All (λ c. IsWidth c.size) (cells_of structs t) }
    ensures aligned { (structs : List Structure) (t : CType)
        → All (λ c. c.offset % c.size ≡ 0) (cells_of structs t) }
    ensures apart { (structs : List Structure) (t : CType)
        → AllPairs (λ a b. a.offset + a.size ≤ b.offset) (cells_of structs t) }
    ensures inside { (structs : List Structure) (t : CType)
        → All (λ c. c.offset + c.size ≤ size_of structs t) (cells_of structs t) }
    ensures multiple { (structs : List Structure) (t : CType) → size_of structs t % alignment_of structs t ≡ 0 }
    ensures alignment { (structs : List Structure) (t : CType) → IsWidth (alignment_of structs t) }
    ensures largest { (structs : List Structure) (t : CType)
        → All (λ c. c.size ≤ alignment_of structs t) (cells_of structs t) }
{}

/// The layouts of a char, of a pointer, and of structs with a char before and behind an int, with chars alone, and with
/// pointers, one of them to the struct itself.
pub fn layouts()
    ensures char { cells_of [] Char ≡ cell 0 1 ∷ [] }
    ensures pointer { size_of [] (Pointer Checked One (Struct 0)) ≡ 4 }
    ensures char_before { cells_of (consisting_of (Char ∷ Int ∷ [])) (Struct 0) ≡ cell 0 1 ∷ cell 4 4 ∷ [] }
    ensures char_before_size { size_of (consisting_of (Char ∷ Int ∷ [])) (Struct 0) ≡ 8 }
    ensures char_behind { cells_of (consisting_of (Int ∷ Char ∷ [])) (Struct 0) ≡ cell 0 4 ∷ cell 4 1 ∷ [] }
    ensures char_behind_size { size_of (consisting_of (Int ∷ Char ∷ [])) (Struct 0) ≡ 8 }
    ensures chars { size_of (consisting_of (Char ∷ Char ∷ Char ∷ [])) (Struct 0) ≡ 3 }
    ensures pointers { cells_of
        (consisting_of (Char ∷ Pointer Checked One (Struct 0) ∷ Char ∷ Char ∷ Pointer Tainted Array Char ∷ []))
        (Struct 0)
        ≡ cell 0 1 ∷ cell 4 4 ∷ cell 8 1 ∷ cell 9 1 ∷ cell 12 4 ∷ [] }
    ensures no_members { size_of (consisting_of []) (Struct 0) ≡ 0 }
{}

/// A 65th member is named before a name that stands twice, and this before a member that is a struct.
pub fn faults()
    ensures none { members_fault (named 1 Int 10 ∷ named 2 (Pointer Checked One (Struct 0)) 11 ∷ []) ≡ None }
    ensures too_many { members_fault (replicate 64 (named 1 (Struct 0) 10) ++ named 2 Int 11 ∷ []) ≡ fault E08 11 }
    ensures twice { members_fault (named 1 Int 10 ∷ named 2 (Struct 0) 11 ∷ named 1 Int 12 ∷ named 2 Int 13 ∷ [])
        ≡ fault E11 12 }
    ensures structs { members_fault (named 1 Int 10 ∷ named 2 (Struct 0) 11 ∷ named 3 (Struct 0) 12 ∷ [])
        ≡ fault E27 11 }
{}

// The instruction tables at work on small images: each function proves what its contract says, and does nothing.

ghost use Rattle.std.specs.Prelude.{◌≡◌, [], ◌∷◌, map, replicate, Some, None, pos, negsuc};
ghost use Rattle.ckc_text.specs.declared.place.Place.{Place};
ghost use Rattle.ckc_text.specs.declared.code.Code.TheVariants.{C1, C2, C3, C4, C5, C6, C8, C9, S1, S3, S5, S6};
ghost use Rattle.act_words.specs.declared.ending.Ending.TheVariants.{Exit, Check, Stop as Stops};
ghost use Rattle.act_words.specs.declared.operator.ArithmeticOperator.TheVariants as arithmetics;
ghost use Rattle.act_words.specs.declared.operator.BitwiseOperator.TheVariants as bits;
ghost use Rattle.act_words.specs.declared.operator.Comparison.TheVariants as comparisons;
ghost use Rattle.act_words.specs.Acts.{Go, Read, Write, Call, Return as Returns, Stop, SeenBytes, SeenCall, SeenReply, Looked, Wrote, Passed, Replied};
ghost use Rattle.code_words.specs.declared.op.Op.TheVariants as ops;
ghost use Rattle.marshalling.specs.declared.kind.WordKind.TheVariants as kinds;
ghost use Rattle.code_words.specs.Runs.{exec, started};
ghost use Rattle.code_words.specs.SandboxCode.{Calls, resting};
ghost use Rattle.code_words.specs.Examples.{settings_of, image_of, run_of, ending_of, ending_by, result_of, checked_by, releases_in, bytes_in, ticks_in, call_place, param, bytes_from, calling, calling_run, function_of, sandboxed, acts_of};

// ---- numbers and memory

/// Sums and differences, and the check of their size.
pub fn sums_and_differences()
    ensures sum { (place : Place) → result_of (pos 41 ∷ pos 1 ∷ []) (ops.Arithmetic arithmetics.Add place) ≡ Some (Exit (pos 42)) }
    ensures difference { (place : Place) → result_of (pos 1 ∷ pos 3 ∷ []) (ops.Arithmetic arithmetics.Subtract place) ≡ Some (Exit (negsuc 1)) }
    ensures overflow { (place : Place) → result_of (pos 2147483647 ∷ pos 1 ∷ []) (ops.Arithmetic arithmetics.Add place) ≡ Some (Check C6 place) }
{}

/// Quotients are rounded toward zero, and shifts to the right down; no negative number is shifted to the left.
pub fn quotients_and_shifts()
    ensures quotient { (place : Place) → result_of (negsuc 6 ∷ pos 2 ∷ []) (ops.Arithmetic arithmetics.Divide place) ≡ Some (Exit (negsuc 2)) }
    ensures right { (place : Place) → result_of (negsuc 6 ∷ pos 1 ∷ []) (ops.Arithmetic arithmetics.ShiftRight place) ≡ Some (Exit (negsuc 3)) }
    ensures left { (place : Place) → result_of (negsuc 0 ∷ pos 1 ∷ []) (ops.Arithmetic arithmetics.ShiftLeft place) ≡ Some (Check C8 place) }
{}

/// Bits of both words, and comparisons of numbers with a sign.
pub fn bits_and_comparisons()
    ensures and { result_of (pos 12 ∷ pos 10 ∷ []) (ops.Bitwise bits.And) ≡ Some (Exit (pos 8)) }
    ensures or { result_of (pos 12 ∷ pos 10 ∷ []) (ops.Bitwise bits.Or) ≡ Some (Exit (pos 14)) }
    ensures xor { result_of (pos 12 ∷ pos 10 ∷ []) (ops.Bitwise bits.Xor) ≡ Some (Exit (pos 6)) }
    ensures equal { result_of (pos 3 ∷ pos 3 ∷ []) (ops.Compare comparisons.Equal) ≡ Some (Exit (pos 1)) }
    ensures not_equal { result_of (pos 3 ∷ pos 3 ∷ []) (ops.Compare comparisons.NotEqual) ≡ Some (Exit (pos 0)) }
    ensures less { result_of (negsuc 0 ∷ pos 0 ∷ []) (ops.Compare comparisons.Less) ≡ Some (Exit (pos 1)) }
    ensures not_less { result_of (pos 3 ∷ pos 3 ∷ []) (ops.Compare comparisons.Less) ≡ Some (Exit (pos 0)) }
    ensures less_equal { result_of (pos 3 ∷ pos 3 ∷ []) (ops.Compare comparisons.LessEqual) ≡ Some (Exit (pos 1)) }
    ensures greater { result_of (pos 0 ∷ negsuc 0 ∷ []) (ops.Compare comparisons.Greater) ≡ Some (Exit (pos 1)) }
    ensures not_greater { result_of (pos 3 ∷ pos 3 ∷ []) (ops.Compare comparisons.Greater) ≡ Some (Exit (pos 0)) }
    ensures greater_equal { result_of (pos 3 ∷ pos 3 ∷ []) (ops.Compare comparisons.GreaterEqual) ≡ Some (Exit (pos 1)) }
{}

/// Bytes and words of memory: null is checked, what is stored is loaded, a byte is stored modulo 256, and the last four
/// bytes are those from 65,596 on.
pub fn words_of_memory()
    ensures null { (place : Place) → result_of (pos 0 ∷ []) (ops.NonNull place) ≡ Some (Check C1 place) }
    ensures stored { ending_by (ops.Const (pos 65552) ∷ ops.Const (negsuc 1) ∷ ops.Store4 ∷ ops.Const (pos 65552) ∷ ops.Load4 ∷ ops.Set 0
        ∷ ops.Local 0 ∷ ops.Return ∷ [])
        ≡ Some (Exit (negsuc 1)) }
    ensures byte { ending_by (ops.Const (pos 65552) ∷ ops.Const (pos 511) ∷ ops.Store1 ∷ ops.Const (pos 65552) ∷ ops.Load4 ∷ ops.Return
        ∷ []) ≡ Some (Exit (pos 255)) }
    ensures last { result_of (pos 65596 ∷ []) ops.Load4 ≡ Some (Exit (pos 0)) }
    ensures past_the_end { result_of (pos 65597 ∷ []) ops.Load4 ≡ Some (Stops S6 None) }
{}

/// A third word has no room on a stack for two.
pub fn full_stacks()
    ensures { ending_of (exec (image_of 2 (map (λ n. ops.Const n) (pos 1 ∷ pos 2 ∷ pos 3 ∷ []))) (settings_of 10) 5
        (started (image_of 2 (map (λ n. ops.Const n) (pos 1 ∷ pos 2 ∷ pos 3 ∷ []))) (settings_of 10) [] [])) ≡ Some (Stops S6 None) }
{}

/// The address of an element, before the pointer too, modulo 2 ^ 32.
pub fn elements()
    ensures behind { result_of (pos 100 ∷ pos 3 ∷ []) (ops.Index 4) ≡ Some (Exit (pos 112)) }
    ensures before { result_of (pos 100 ∷ negsuc 0 ∷ []) (ops.Index 4) ≡ Some (Exit (pos 96)) }
    ensures around { result_of (negsuc 3 ∷ pos 2 ∷ []) (ops.Index 4) ≡ Some (Exit (pos 4)) }
    ensures below_zero { result_of (pos 0 ∷ negsuc 0 ∷ []) (ops.Index 4) ≡ Some (Exit (negsuc 3)) }
{}

/// The length of a text: each byte spends a tick, the zero included, and a text without a zero runs into the memory's end.
pub fn lengths()
    ensures none { result_of (pos 65536 ∷ []) ops.TextLength ≡ Some (Exit (pos 0)) }
    ensures one { ending_of (run_of 2 (ops.Const (pos 65540) ∷ ops.Const (pos 97) ∷ ops.Store1 ∷ ops.Const (pos 65540) ∷ ops.TextLength
        ∷ ops.Return ∷ []) []) ≡ Some (Exit (pos 1)) }
    ensures ticks { ticks_in (run_of 9 (ops.Const (pos 65540) ∷ ops.Const (pos 97) ∷ ops.Store1 ∷ ops.Const (pos 65540) ∷ ops.TextLength
        ∷ ops.Return ∷ []) []) ≡ 2 }
    ensures budget { ending_of (run_of 1 (ops.Const (pos 65540) ∷ ops.Const (pos 97) ∷ ops.Store1 ∷ ops.Const (pos 65540) ∷ ops.TextLength
        ∷ ops.Return ∷ []) []) ≡ Some (Stops S1 None) }
    ensures unended { ending_by (ops.Const (pos 65599) ∷ ops.Const (pos 97) ∷ ops.Store1 ∷ ops.Const (pos 65599) ∷ ops.TextLength
        ∷ ops.Return ∷ []) ≡ Some (Stops S6 None) }
    ensures outside { result_of (pos 65600 ∷ []) ops.TextLength ≡ Some (Stops S6 None) }
{}

// ---- checks

/// An access lies in its bounds: at or above the lower end, and below the upper one.
pub fn accesses_within()
    ensures lowest { (place : Place) → checked_by (pos 100 ∷ pos 0 ∷ pos 100 ∷ pos 0 ∷ pos 2 ∷ []) (ops.In (pos 0) (pos 0) 4 place) ≡ Some (Exit (pos 7)) }
    ensures highest { (place : Place) → checked_by (pos 100 ∷ pos 1 ∷ pos 100 ∷ pos 0 ∷ pos 2 ∷ []) (ops.In (pos 0) (pos 0) 4 place) ≡ Some (Exit (pos 7)) }
    ensures above { (place : Place) → checked_by (pos 100 ∷ pos 2 ∷ pos 100 ∷ pos 0 ∷ pos 2 ∷ []) (ops.In (pos 0) (pos 0) 4 place) ≡ Some (Check C2 place) }
    ensures below { (place : Place) → checked_by (pos 100 ∷ negsuc 0 ∷ pos 100 ∷ pos 0 ∷ pos 2 ∷ []) (ops.In (pos 0) (pos 0) 4 place) ≡ Some (Check C2 place) }
    ensures moved { (place : Place) → checked_by (pos 100 ∷ pos 1 ∷ pos 100 ∷ pos 0 ∷ pos 3 ∷ []) (ops.In (pos 1) (negsuc 0) 4 place) ≡ Some (Exit (pos 7)) }
    ensures below_moved { (place : Place) → checked_by (pos 100 ∷ pos 0 ∷ pos 100 ∷ pos 0 ∷ pos 3 ∷ []) (ops.In (pos 1) (negsuc 0) 4 place)
        ≡ Some (Check C2 place) }
    ensures above_moved { (place : Place) → checked_by (pos 100 ∷ pos 2 ∷ pos 100 ∷ pos 0 ∷ pos 3 ∷ []) (ops.In (pos 1) (negsuc 0) 4 place)
        ≡ Some (Check C2 place) }
{}

/// A sum, or an access of a null-terminated pointer, may also be at the upper end.
pub fn sums_within()
    ensures lowest { (place : Place) → checked_by (pos 100 ∷ pos 0 ∷ pos 100 ∷ pos 0 ∷ pos 2 ∷ []) (ops.UpTo (pos 0) (pos 0) 4 place) ≡ Some (Exit (pos 7)) }
    ensures highest { (place : Place) → checked_by (pos 100 ∷ pos 2 ∷ pos 100 ∷ pos 0 ∷ pos 2 ∷ []) (ops.UpTo (pos 0) (pos 0) 4 place) ≡ Some (Exit (pos 7)) }
    ensures above { (place : Place) → checked_by (pos 100 ∷ pos 3 ∷ pos 100 ∷ pos 0 ∷ pos 2 ∷ []) (ops.UpTo (pos 0) (pos 0) 4 place) ≡ Some (Check C2 place) }
    ensures below { (place : Place) → checked_by (pos 100 ∷ negsuc 0 ∷ pos 100 ∷ pos 0 ∷ pos 2 ∷ []) (ops.UpTo (pos 0) (pos 0) 4 place)
        ≡ Some (Check C2 place) }
    ensures above_moved { (place : Place) → checked_by (pos 100 ∷ pos 2 ∷ pos 100 ∷ pos 0 ∷ pos 2 ∷ [])
        (ops.UpTo (pos 0) (negsuc 0) 4 place) ≡ Some (Check C2 place) }
{}

/// At the upper end of a null-terminated pointer only 0 is stored.
pub fn terminators()
    ensures zero { (place : Place) → checked_by (pos 100 ∷ pos 2 ∷ pos 100 ∷ pos 2 ∷ pos 0 ∷ []) (ops.Term (pos 0) 1 place) ≡ Some (Exit (pos 7)) }
    ensures other { (place : Place) → checked_by (pos 100 ∷ pos 2 ∷ pos 100 ∷ pos 2 ∷ pos 5 ∷ []) (ops.Term (pos 0) 1 place) ≡ Some (Check C3 place) }
    ensures below { (place : Place) → checked_by (pos 100 ∷ pos 1 ∷ pos 100 ∷ pos 2 ∷ pos 5 ∷ []) (ops.Term (pos 0) 1 place) ≡ Some (Exit (pos 7)) }
    ensures moved { (place : Place) → checked_by (pos 100 ∷ pos 3 ∷ pos 100 ∷ pos 2 ∷ pos 5 ∷ []) (ops.Term (pos 1) 4 place) ≡ Some (Check C3 place) }
{}

/// A dynamic cast: the new bounds lie within the old ones, or the pointer is null, or the new bounds are none. The pointer
/// stays.
pub fn dynamic_casts()
    ensures same { (place : Place) → result_of (pos 108 ∷ pos 100 ∷ pos 0 ∷ pos 4 ∷ pos 100 ∷ pos 0 ∷ pos 4 ∷ [])
        (ops.Contain (pos 0) (pos 0) (pos 0) (pos 0) 4 place) ≡ Some (Exit (pos 108)) }
    ensures above { (place : Place) → result_of (pos 108 ∷ pos 100 ∷ pos 0 ∷ pos 4 ∷ pos 100 ∷ pos 0 ∷ pos 5 ∷ [])
        (ops.Contain (pos 0) (pos 0) (pos 0) (pos 0) 4 place) ≡ Some (Check C5 place) }
    ensures below { (place : Place) → result_of (pos 108 ∷ pos 100 ∷ pos 0 ∷ pos 4 ∷ pos 100 ∷ negsuc 0 ∷ pos 4 ∷ [])
        (ops.Contain (pos 0) (pos 0) (pos 0) (pos 0) 4 place) ≡ Some (Check C5 place) }
    ensures null { (place : Place) → result_of (pos 0 ∷ pos 100 ∷ pos 0 ∷ pos 4 ∷ pos 100 ∷ pos 0 ∷ pos 5 ∷ [])
        (ops.Contain (pos 0) (pos 0) (pos 0) (pos 0) 4 place) ≡ Some (Exit (pos 0)) }
    ensures none { (place : Place) → result_of (pos 108 ∷ pos 100 ∷ pos 0 ∷ pos 4 ∷ pos 100 ∷ pos 9 ∷ pos 8 ∷ [])
        (ops.Contain (pos 0) (pos 0) (pos 0) (pos 0) 4 place) ≡ Some (Exit (pos 108)) }
    ensures empty { (place : Place) → result_of (pos 108 ∷ pos 100 ∷ pos 0 ∷ pos 4 ∷ pos 100 ∷ pos 9 ∷ pos 9 ∷ [])
        (ops.Contain (pos 0) (pos 0) (pos 0) (pos 0) 4 place) ≡ Some (Check C5 place) }
    ensures moved { (place : Place) → result_of (pos 108 ∷ pos 100 ∷ pos 0 ∷ pos 4 ∷ pos 100 ∷ pos 0 ∷ pos 4 ∷ [])
        (ops.Contain (pos 1) (pos 0) (pos 0) (pos 0) 4 place) ≡ Some (Check C5 place) }
    ensures within { (place : Place) → result_of (pos 108 ∷ pos 100 ∷ pos 0 ∷ pos 4 ∷ pos 100 ∷ pos 0 ∷ pos 4 ∷ [])
        (ops.Contain (pos 1) (negsuc 0) (pos 1) (negsuc 0) 4 place) ≡ Some (Exit (pos 108)) }
{}

/// Bounds of a tainted pointer lie in the 64 bytes of the sandbox's memory, without its first byte and with so many more
/// bytes behind them, or the pointer is null, or the bounds are none.
pub fn tainted_bounds()
    ensures highest { (place : Place) → result_of (pos 60 ∷ pos 60 ∷ pos 0 ∷ pos 4 ∷ []) (ops.Lies (pos 0) (pos 0) 1 0 place) ≡ Some (Exit (pos 60)) }
    ensures above { (place : Place) → result_of (pos 60 ∷ pos 60 ∷ pos 0 ∷ pos 5 ∷ []) (ops.Lies (pos 0) (pos 0) 1 0 place) ≡ Some (Check C5 place) }
    ensures more { (place : Place) → result_of (pos 60 ∷ pos 60 ∷ pos 0 ∷ pos 4 ∷ []) (ops.Lies (pos 0) (pos 0) 1 1 place) ≡ Some (Check C5 place) }
    ensures lowest { (place : Place) → result_of (pos 60 ∷ pos 0 ∷ pos 1 ∷ pos 1 ∷ []) (ops.Lies (pos 0) (pos 0) 1 0 place) ≡ Some (Exit (pos 60)) }
    ensures below { (place : Place) → result_of (pos 60 ∷ pos 0 ∷ pos 0 ∷ pos 1 ∷ []) (ops.Lies (pos 0) (pos 0) 1 0 place) ≡ Some (Check C5 place) }
    ensures null { (place : Place) → result_of (pos 0 ∷ pos 60 ∷ pos 0 ∷ pos 5 ∷ []) (ops.Lies (pos 0) (pos 0) 1 0 place) ≡ Some (Exit (pos 0)) }
    ensures none { (place : Place) → result_of (pos 60 ∷ pos 100 ∷ pos 1 ∷ pos 0 ∷ []) (ops.Lies (pos 0) (pos 0) 1 0 place) ≡ Some (Exit (pos 60)) }
    ensures moved { (place : Place) → result_of (pos 60 ∷ pos 60 ∷ pos 0 ∷ pos 0 ∷ []) (ops.Lies (negsuc 0) (pos 2) 4 0 place) ≡ Some (Check C5 place) }
{}

/// A cell of the sandbox's memory, at an offset of so many bytes: all of it lies in the 64 bytes, and the pointer stays.
pub fn cells_in_range()
    ensures last { (place : Place) → result_of (pos 60 ∷ []) (ops.Range 0 4 place) ≡ Some (Exit (pos 60)) }
    ensures above { (place : Place) → result_of (pos 61 ∷ []) (ops.Range 0 4 place) ≡ Some (Check C4 place) }
    ensures last_member { (place : Place) → result_of (pos 59 ∷ []) (ops.Range 1 4 place) ≡ Some (Exit (pos 59)) }
    ensures member_above { (place : Place) → result_of (pos 60 ∷ []) (ops.Range 1 4 place) ≡ Some (Check C4 place) }
    ensures large { (place : Place) → result_of (negsuc 3 ∷ []) (ops.Range 0 4 place) ≡ Some (Check C4 place) }
{}

// ---- allocations

/// Blocks of the 64 bytes of trusted memory: the first stands at offset 16, 16 bytes stand behind each, and a count of 0
/// or less, or one that has no room, gives null.
pub fn trusted_blocks()
    ensures largest { result_of (pos 32 ∷ []) (ops.Alloc 1) ≡ Some (Exit (pos 65552)) }
    ensures too_large { result_of (pos 33 ∷ []) (ops.Alloc 1) ≡ Some (Exit (pos 0)) }
    ensures elements { result_of (pos 8 ∷ []) (ops.Alloc 4) ≡ Some (Exit (pos 65552)) }
    ensures too_many { result_of (pos 9 ∷ []) (ops.Alloc 4) ≡ Some (Exit (pos 0)) }
    ensures zero { result_of (pos 0 ∷ []) (ops.Alloc 1) ≡ Some (Exit (pos 0)) }
    ensures negative { result_of (negsuc 0 ∷ []) (ops.Alloc 1) ≡ Some (Exit (pos 0)) }
    ensures full { ending_by (ops.Const (pos 1) ∷ ops.Alloc 1 ∷ ops.Discard ∷ ops.Const (pos 1) ∷ ops.Alloc 1 ∷ ops.Return ∷ []) ≡ Some (Exit (pos 0)) }
    ensures refused_before { ending_by (ops.Const (pos 33) ∷ ops.Alloc 1 ∷ ops.Discard ∷ ops.Const (pos 32) ∷ ops.Alloc 1 ∷ ops.Return ∷ [])
        ≡ Some (Exit (pos 65552)) }
{}

/// The same with one element more, for a terminator.
pub fn terminated_blocks()
    ensures largest { result_of (pos 31 ∷ []) (ops.AllocTerminated 1) ≡ Some (Exit (pos 65552)) }
    ensures too_large { result_of (pos 32 ∷ []) (ops.AllocTerminated 1) ≡ Some (Exit (pos 0)) }
    ensures elements { result_of (pos 7 ∷ []) (ops.AllocTerminated 4) ≡ Some (Exit (pos 65552)) }
    ensures too_many { result_of (pos 8 ∷ []) (ops.AllocTerminated 4) ≡ Some (Exit (pos 0)) }
    ensures zero { result_of (pos 0 ∷ []) (ops.AllocTerminated 1) ≡ Some (Exit (pos 0)) }
    ensures negative { result_of (negsuc 0 ∷ []) (ops.AllocTerminated 1) ≡ Some (Exit (pos 0)) }
{}

/// Blocks of the sandbox's memory, by their offsets. Making one is no touch.
pub fn sandbox_blocks()
    ensures largest { result_of (pos 32 ∷ []) (ops.SandboxAlloc 1) ≡ Some (Exit (pos 16)) }
    ensures too_large { result_of (pos 33 ∷ []) (ops.SandboxAlloc 1) ≡ Some (Exit (pos 0)) }
    ensures zero { result_of (pos 0 ∷ []) (ops.SandboxAlloc 4) ≡ Some (Exit (pos 0)) }
    ensures negative { result_of (negsuc 0 ∷ []) (ops.SandboxAlloc 4) ≡ Some (Exit (pos 0)) }
    ensures full { ending_by (ops.Const (pos 1) ∷ ops.SandboxAlloc 4 ∷ ops.Discard ∷ ops.Const (pos 1) ∷ ops.SandboxAlloc 4 ∷ ops.Return
        ∷ []) ≡ Some (Exit (pos 0)) }
    ensures untouched { releases_in (run_of 10 (ops.Const (pos 1) ∷ ops.SandboxAlloc 4 ∷ ops.Return ∷ []) []) ≡ [] }
{}

// ---- touches

/// Loads of the sandbox's memory wait for the acts before them. Whether they lie in it is asked before any act.
pub fn loads()
    ensures word { ending_of (run_of 10 (ops.Const (pos 4) ∷ ops.TouchLoad4 ∷ ops.Return ∷ []) (Write 4 (1 ∷ 2 ∷ 0 ∷ 0 ∷ []) ∷ Go ∷ []))
        ≡ Some (Exit (pos 513)) }
    ensures byte { ending_of (run_of 10 (ops.Const (pos 4) ∷ ops.TouchLoad1 ∷ ops.Return ∷ []) (Write 4 (1 ∷ 2 ∷ 0 ∷ 0 ∷ []) ∷ Go ∷ [])) ≡ Some (Exit (pos 1)) }
    ensures releases { releases_in (run_of 10 (ops.Const (pos 4) ∷ ops.TouchLoad4 ∷ ops.Return ∷ []) []) ≡ Looked ∷ [] }
    ensures stopped { ending_of (run_of 10 (ops.Const (pos 60) ∷ ops.TouchLoad4 ∷ ops.Return ∷ []) (Stop ∷ [])) ≡ Some (Stops S3 None) }
    ensures last_word { result_of (pos 60 ∷ []) ops.TouchLoad4 ≡ Some (Exit (pos 0)) }
    ensures word_above { ending_of (run_of 10 (ops.Const (pos 61) ∷ ops.TouchLoad4 ∷ ops.Return ∷ []) (Stop ∷ [])) ≡ Some (Stops S6 None) }
    ensures last_byte { result_of (pos 63 ∷ []) ops.TouchLoad1 ≡ Some (Exit (pos 0)) }
    ensures byte_above { result_of (pos 64 ∷ []) ops.TouchLoad1 ≡ Some (Stops S6 None) }
{}

/// Stores release their bytes, the lowest first.
pub fn stores()
    ensures word { bytes_in 8 (run_of 10 (ops.Const (pos 2) ∷ ops.Const (pos 16909060) ∷ ops.TouchStore4 ∷ ops.Const (pos 0) ∷ ops.Return
        ∷ []) []) ≡ 0 ∷ 0 ∷ 4 ∷ 3 ∷ 2 ∷ 1 ∷ 0 ∷ 0 ∷ [] }
    ensures word_released { releases_in (run_of 10 (ops.Const (pos 2) ∷ ops.Const (pos 16909060) ∷ ops.TouchStore4 ∷ ops.Const (pos 0)
        ∷ ops.Return ∷ []) []) ≡ Wrote 2 (4 ∷ 3 ∷ 2 ∷ 1 ∷ []) ∷ [] }
    ensures byte { bytes_in 4 (run_of 10 (ops.Const (pos 1) ∷ ops.Const (pos 511) ∷ ops.TouchStore1 ∷ ops.Const (pos 0) ∷ ops.Return ∷ [])
        []) ≡ 0 ∷ 255 ∷ 0 ∷ 0 ∷ [] }
    ensures byte_released { releases_in (run_of 10 (ops.Const (pos 1) ∷ ops.Const (pos 511) ∷ ops.TouchStore1 ∷ ops.Const (pos 0)
        ∷ ops.Return ∷ []) []) ≡ Wrote 1 (255 ∷ []) ∷ [] }
    ensures last_word { checked_by (pos 60 ∷ pos 1 ∷ []) ops.TouchStore4 ≡ Some (Exit (pos 7)) }
    ensures word_above { checked_by (pos 61 ∷ pos 1 ∷ []) ops.TouchStore4 ≡ Some (Stops S6 None) }
    ensures last_byte { checked_by (pos 63 ∷ pos 1 ∷ []) ops.TouchStore1 ≡ Some (Exit (pos 7)) }
    ensures byte_above { checked_by (pos 64 ∷ pos 1 ∷ []) ops.TouchStore1 ≡ Some (Stops S6 None) }
{}

// ---- calls across

/// What a tainted function gives: a word, which for a `char` is at most 255, or nothing.
pub fn tainted_replies()
    ensures word { ending_of (calling_run 10 (calling kinds.Int kinds.Int [] []) (Go ∷ Returns 256 ∷ [])) ≡ Some (Exit (pos 256)) }
    ensures char { ending_of (calling_run 10 (calling kinds.Char kinds.Int [] []) (Go ∷ Returns 255 ∷ [])) ≡ Some (Exit (pos 255)) }
    ensures large { ending_of (calling_run 10 (calling kinds.Char kinds.Int [] []) (Go ∷ Returns 256 ∷ [])) ≡ Some (Check C9 call_place) }
    ensures nothing { ending_of (calling_run 10 (calling kinds.Void kinds.Int [] []) (Go ∷ Returns 5 ∷ [])) ≡ Some (Stops S6 None) }
    ensures unasked { ending_of (calling_run 10 (calling kinds.Int kinds.Int [] []) (Returns 5 ∷ [])) ≡ Some (Stops S5 (Some 1)) }
    ensures passed { releases_in (calling_run 10 (calling kinds.Int kinds.Int [] []) (Go ∷ Returns 5 ∷ [])) ≡ Passed 0 [] ∷ [] }
{}

/// A callback is called with its count of words, spends a tick, and replies; one without a result replies 0.
pub fn callbacks()
    ensures ending { ending_of (calling_run 10 (calling kinds.Int kinds.Int (param kinds.Int 1 None ∷ []) (ops.Local 0 ∷ ops.Return ∷ []))
        (Go ∷ Call 0 (5 ∷ []) ∷ Go ∷ Returns 9 ∷ [])) ≡ Some (Exit (pos 9)) }
    ensures replied { releases_in (calling_run 10 (calling kinds.Int kinds.Int (param kinds.Int 1 None ∷ [])
        (ops.Local 0 ∷ ops.Return ∷ [])) (Go ∷ Call 0 (5 ∷ []) ∷ Go ∷ Returns 9 ∷ [])) ≡ Passed 0 [] ∷ Replied 5 ∷ [] }
    ensures nothing { releases_in (calling_run 10 (calling kinds.Int kinds.Void [] (ops.ReturnNothing ∷ []))
        (Go ∷ Call 0 [] ∷ Go ∷ Returns 9 ∷ [])) ≡ Passed 0 [] ∷ Replied 0 ∷ [] }
    ensures no_word { ending_of (calling_run 10 (calling kinds.Int kinds.Int [] (ops.ReturnNothing ∷ [])) (Go ∷ Call 0 [] ∷ Go ∷ [])) ≡ Some (Stops S6 None) }
    ensures unknown { ending_of (calling_run 10 (calling kinds.Int kinds.Int [] []) (Go ∷ Call 1 [] ∷ [])) ≡ Some (Stops S5 (Some 2)) }
    ensures count { ending_of (calling_run 0 (calling kinds.Int kinds.Int [] []) (Go ∷ Call 0 (5 ∷ []) ∷ [])) ≡ Some (Stops S5 (Some 2)) }
    ensures budget { ending_of (calling_run 0 (calling kinds.Int kinds.Int (param kinds.Char 1 None ∷ []) []) (Go ∷ Call 0 (256 ∷ []) ∷ []))
        ≡ Some (Stops S1 None) }
{}

/// What the sandbox passes to a callback is checked from left to right: a `char`, and the bounds of a pointer.
pub fn callback_arguments()
    ensures char { releases_in (calling_run 10 (calling kinds.Int kinds.Int (param kinds.Char 1 None ∷ []) (ops.Local 0 ∷ ops.Return ∷ []))
        (Go ∷ Call 0 (255 ∷ []) ∷ [])) ≡ Passed 0 [] ∷ Replied 255 ∷ [] }
    ensures large { ending_of (calling_run 10 (calling kinds.Int kinds.Int (param kinds.Char 1 None ∷ []) []) (Go ∷ Call 0 (256 ∷ []) ∷ []))
        ≡ Some (Check C9 (record { line = 1; col = 1 })) }
    ensures region { releases_in (calling_run 10 (calling kinds.Int kinds.Int
        (param kinds.Pointer 1 (Some (bytes_from 0 (pos 4) None 0)) ∷ []) (ops.Local 0 ∷ ops.Return ∷ [])) (Go ∷ Call 0 (60 ∷ []) ∷ []))
        ≡ Passed 0 [] ∷ Replied 60 ∷ [] }
    ensures outside { ending_of (calling_run 10 (calling kinds.Int kinds.Int
        (param kinds.Pointer 1 (Some (bytes_from 0 (pos 4) None 0)) ∷ []) []) (Go ∷ Call 0 (61 ∷ []) ∷ [])) ≡ Some
        (Check C4 (record { line = 1; col = 1 })) }
    ensures more { ending_of (calling_run 10 (calling kinds.Int kinds.Int (param kinds.Pointer 1 (Some (bytes_from 0 (pos 4) None 1)) ∷ [])
        []) (Go ∷ Call 0 (60 ∷ []) ∷ [])) ≡ Some (Check C4 (record { line = 1; col = 1 })) }
    ensures null { releases_in (calling_run 10 (calling kinds.Int kinds.Int
        (param kinds.Pointer 1 (Some (bytes_from 0 (pos 99) None 0)) ∷ []) (ops.Local 0 ∷ ops.Return ∷ [])) (Go ∷ Call 0 (0 ∷ []) ∷ []))
        ≡ Passed 0 [] ∷ Replied 0 ∷ [] }
    ensures counted { releases_in (calling_run 10 (calling kinds.Int kinds.Int
        (param kinds.Pointer 1 (Some (bytes_from 0 (pos 0) (Some 1) 0)) ∷ param kinds.Int 2 None ∷ []) (ops.Local 0 ∷ ops.Return ∷ []))
        (Go ∷ Call 0 (60 ∷ 4 ∷ []) ∷ [])) ≡ Passed 0 [] ∷ Replied 60 ∷ [] }
    ensures too_many { ending_of (calling_run 10 (calling kinds.Int kinds.Int
        (param kinds.Pointer 1 (Some (bytes_from 0 (pos 0) (Some 1) 0)) ∷ param kinds.Int 2 None ∷ []) []) (Go ∷ Call 0 (60 ∷ 5 ∷ []) ∷ []))
        ≡ Some (Check C4 (record { line = 1; col = 1 })) }
    ensures left_first { ending_of (calling_run 10 (calling kinds.Int kinds.Int (param kinds.Char 1 None ∷ param kinds.Char 2 None ∷ []) [])
        (Go ∷ Call 0 (256 ∷ 256 ∷ []) ∷ [])) ≡ Some (Check C9 (record { line = 1; col = 1 })) }
{}

// ---- the sandbox's code

/// Arithmetic wraps, and a zero divisor ends the sandbox.
pub fn sandbox_arithmetic()
    ensures sum { acts_of (sandboxed (function_of 0 2 2 2 (ops.Local 0 ∷ ops.Local 1 ∷ ops.WrapAdd ∷ ops.Return ∷ []) ∷ [])) 10 resting
        (SeenCall 0 (4294967295 ∷ 3 ∷ []) ∷ []) ≡ Returns 2 ∷ [] }
    ensures quotient { acts_of (sandboxed (function_of 0 2 2 2 (ops.Local 0 ∷ ops.Local 1 ∷ ops.WrapDiv ∷ ops.Return ∷ []) ∷ [])) 10 resting
        (SeenCall 0 (4294967289 ∷ 2 ∷ []) ∷ []) ≡ Returns 4294967293 ∷ [] }
    ensures lowest_quotient { acts_of (sandboxed (function_of 0 2 2 2 (ops.Local 0 ∷ ops.Local 1 ∷ ops.WrapDiv ∷ ops.Return ∷ []) ∷ [])) 10
        resting (SeenCall 0 (2147483648 ∷ 4294967295 ∷ []) ∷ []) ≡ Returns 2147483648 ∷ [] }
    ensures lowest_remainder { acts_of (sandboxed (function_of 0 2 2 2 (ops.Local 0 ∷ ops.Local 1 ∷ ops.WrapRem ∷ ops.Return ∷ []) ∷ [])) 10
        resting (SeenCall 0 (2147483648 ∷ 4294967295 ∷ []) ∷ []) ≡ Returns 0 ∷ [] }
    ensures zero_divisor { acts_of (sandboxed (function_of 0 2 2 2 (ops.Local 0 ∷ ops.Local 1 ∷ ops.WrapDiv ∷ ops.Return ∷ []) ∷ [])) 10
        resting (SeenCall 0 (7 ∷ 0 ∷ []) ∷ []) ≡ Stop ∷ [] }
    ensures zero_remainder { acts_of (sandboxed (function_of 0 2 2 2 (ops.Local 0 ∷ ops.Local 1 ∷ ops.WrapRem ∷ ops.Return ∷ []) ∷ [])) 10
        resting (SeenCall 0 (7 ∷ 0 ∷ []) ∷ []) ≡ Stop ∷ [] }
    ensures other_side { acts_of (sandboxed (function_of 0 1 1 1 (ops.Local 0 ∷ ops.Print ∷ []) ∷ [])) 10 resting (SeenCall 0 (7 ∷ []) ∷ []) ≡ Stop ∷ [] }
{}

/// Loads and stores are acts, and so are calls of callbacks.
pub fn sandbox_acts()
    ensures load { acts_of (sandboxed (function_of 0 0 0 1 (ops.Const (pos 16) ∷ ops.Load4 ∷ ops.Return ∷ []) ∷ [])) 10 resting
        (SeenCall 0 [] ∷ SeenBytes 16 (5 ∷ 1 ∷ 0 ∷ 0 ∷ []) ∷ []) ≡ Read 16 4 ∷ Returns 261 ∷ [] }
    ensures byte { acts_of (sandboxed (function_of 0 0 0 1 (ops.Const (pos 16) ∷ ops.Load1 ∷ ops.Return ∷ []) ∷ [])) 10 resting
        (SeenCall 0 [] ∷ SeenBytes 16 (5 ∷ []) ∷ []) ≡ Read 16 1 ∷ Returns 5 ∷ [] }
    ensures store { acts_of (sandboxed (function_of 0 0 0 2 (ops.Const (pos 16) ∷ ops.Const (pos 513) ∷ ops.Store4 ∷ ops.ReturnNothing ∷ [])
        ∷ [])) 10 resting (SeenCall 0 [] ∷ SeenCall 0 [] ∷ []) ≡ Write 16 (1 ∷ 2 ∷ 0 ∷ 0 ∷ []) ∷ Returns 0 ∷ [] }
    ensures low_byte { acts_of (sandboxed (function_of 0 0 0 2 (ops.Const (pos 16) ∷ ops.Const (pos 513) ∷ ops.Store1 ∷ ops.ReturnNothing
        ∷ []) ∷ [])) 10 resting (SeenCall 0 [] ∷ []) ≡ Write 16 (1 ∷ []) ∷ [] }
    ensures callback { acts_of (sandboxed (function_of 0 0 0 1 (ops.Const (pos 8) ∷ ops.CallBack 0 ∷ ops.Return ∷ []) ∷ [])) 10 resting
        (SeenCall 0 [] ∷ SeenReply 9 ∷ []) ≡ Call 0 (8 ∷ []) ∷ Returns 9 ∷ [] }
    ensures without_result { acts_of (sandboxed (function_of 0 0 0 1 (ops.Const (pos 8) ∷ ops.CallBack 1 ∷ ops.Return ∷ []) ∷ [])) 10
        resting (SeenCall 0 [] ∷ SeenReply 9 ∷ []) ≡ Call 1 [] ∷ Returns 8 ∷ [] }
    ensures unknown { acts_of (sandboxed (function_of 0 0 0 1 (ops.CallBack 2 ∷ []) ∷ [])) 10 resting (SeenCall 0 [] ∷ []) ≡ Stop ∷ [] }
{}

/// Calls in the sandbox, up to 1,000 that are open, ticks, and functions that return nothing.
pub fn sandbox_calls()
    ensures call { acts_of (sandboxed (function_of 0 1 1 1 (ops.Local 0 ∷ ops.Call 3 ∷ ops.Return ∷ []) ∷ function_of 3 1 1 2
        (ops.Local 0 ∷ ops.Local 0 ∷ ops.WrapAdd ∷ ops.Return ∷ []) ∷ [])) 10 resting (SeenCall 0 (21 ∷ []) ∷ []) ≡ Returns 42 ∷ [] }
    ensures nothing { acts_of (sandboxed (function_of 0 0 0 1 (ops.Call 3 ∷ ops.ReturnNothing ∷ []) ∷ function_of 3 0 0 1
        (ops.ReturnNothing ∷ []) ∷ [])) 10 resting (SeenCall 0 [] ∷ []) ≡ Returns 0 ∷ [] }
    ensures last_call { acts_of (sandboxed (function_of 0 0 0 1 (ops.ReturnNothing ∷ []) ∷ [])) 10
        (record resting { held = replicate 999 (Calls (record { function = 0; next = 0; slots = []; stack = [] })) }) (SeenCall 0 [] ∷ [])
        ≡ Returns 0 ∷ [] }
    ensures depth { acts_of (sandboxed (function_of 0 0 0 1 (ops.ReturnNothing ∷ []) ∷ [])) 10
        (record resting { held = replicate 1000 (Calls (record { function = 0; next = 0; slots = []; stack = [] })) }) (SeenCall 0 [] ∷ [])
        ≡ Stop ∷ [] }
    ensures tick { acts_of (sandboxed (function_of 0 0 0 1 (ops.Tick ∷ ops.ReturnNothing ∷ []) ∷ [])) 1 resting (SeenCall 0 [] ∷ []) ≡ Returns 0 ∷ [] }
    ensures budget { acts_of (sandboxed (function_of 0 0 0 1 (ops.Tick ∷ ops.Tick ∷ ops.ReturnNothing ∷ []) ∷ [])) 1 resting (SeenCall 0 [] ∷ []) ≡ Stop ∷ [] }
    ensures no_body { acts_of (sandboxed []) 10 resting (SeenCall 0 [] ∷ []) ≡ Stop ∷ [] }
    ensures other_count { acts_of (sandboxed (function_of 0 1 1 1 (ops.Local 0 ∷ ops.Return ∷ []) ∷ [])) 10 resting (SeenCall 0 [] ∷ []) ≡ Stop ∷ [] }
    ensures no_return { acts_of (sandboxed (function_of 0 0 0 1 [] ∷ [])) 10 resting (SeenCall 0 [] ∷ []) ≡ Stop ∷ [] }
{}

// What holds of the sides of every program.

ghost use Rattle.ckc_core.specs.Core.{Core};
ghost use Rattle.partitioner.specs.Parts.{IsPartition, parts_of};

/// Each function and each file-level variable stands on exactly one side, in the order of the source.
pub fn partition()
    ensures { (c : Core) → IsPartition c (parts_of c) }
{}

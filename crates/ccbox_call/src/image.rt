// The code of an accepted program.

ghost use Rattle.std.specs.Prelude.{◌≡◌, IfOk};
ghost use Rattle.ckc_core.specs.Core.{core};
ghost use Rattle.check_insertion.specs.Insert.{inserted};
ghost use Rattle.lowering.specs.Correct.{KeepsMeaning};
ghost use Rattle.lowering.specs.Images as images;
ghost use Rattle.ccbox_call.specs.Acceptance.{IsAcceptedCore};

use check_insertion::insert::insert;
use ckc_core::program::Core;
use ckc_text::fault::NoMemory;
use code_words::image::Image;
use lowering::lower::lower;
use partitioner::split::split;
use std::alloc::Global;

/// The code of a program with its checks.
pub fn image_of(alloc: Global, program: &Core) -> Result<Image, NoMemory>
    requires accepted { IsAcceptedCore (core program.now) }
    ensures code { IfOk result (λ image. image ≡ images.image_of (inserted (core program.now))) }
    ensures meaning { IfOk result (λ image. KeepsMeaning (inserted (core program.now)) image) }
{
    let parts = split(alloc, program)?;
    let erased = insert(alloc, program, &parts)?;
    lower(alloc, &erased)
}

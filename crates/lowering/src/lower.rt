// The whole way from a program with its checks to an image.

ghost use Rattle.std.specs.Prelude.{◌≡◌, IfOk};
ghost use Rattle.check_insertion.specs.Erased.{erased};
ghost use Rattle.lowering.specs.Images.{image_of};
ghost use Rattle.lowering.specs.Correct.{IsLowerable, KeepsMeaning};

use crate::images::emit_image;
use check_insertion::erased::Erased;
use ckc_text::fault::NoMemory;
use code_words::image::Image;
use std::alloc::Global;

/// The image of a program, whose run is what the program means, at every base address.
pub fn lower(alloc: Global, program: &Erased) -> Result<Image, NoMemory>
    requires { IsLowerable (erased program.now) }
    ensures code { IfOk result (λ image. image ≡ image_of (erased program.now)) }
    ensures meaning { IfOk result (λ image. KeepsMeaning (erased program.now) image) }
{
    emit_image(alloc, program)
}

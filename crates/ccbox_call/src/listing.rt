// From the file of a listing to its image, or to the line that says why it has none.

ghost use Rattle.std.specs.Prelude.{◌≡◌, ◌≤◌, length, take};
ghost use Rattle.ckc_text.specs.Places.{line_behind as line_behind_bytes};
ghost use Rattle.ccbox_call.specs.Calls.{ImageOrLine, ListingRead, ImageRead};

use ccbox_call_words::output::{give_listing_refused, give_missing};
use ccbox_call_words::status::Status;
use ckc_io::shelf::Shelf;
use ckc_io::sink::Sink;
use ckc_io::whole::{ReadFault, read_whole};
use code_words::image::Image;
use code_words_listing::read_listing::{ListRefused, read_list};
use std::alloc::Global;

// How many bytes a listing may have.
const MAX_LISTING: usize = 16_777_216;

/// The image of the listing of a file.
///
/// # Errors
///
/// The status behind the line that says why there is none, which is written; or that of files or an output that failed, or
/// of want of memory.
pub fn read_image<F: Shelf, K: Sink>(
    alloc: Global,
    file: &str,
    shelf: &mut F,
    sink: &mut K,
) -> Result<Image, Status>
    ensures files { F.files shelf.new ≡ F.files shelf.old }
    ensures image { ImageRead (F.files shelf.old) file.now (K.written sink.old) (K.written sink.new)
        (record { misses = F.misses shelf.old; faults = F.faults shelf.old; sink = K.faults sink.old })
        (record { misses = F.misses shelf.new; faults = F.faults shelf.new; sink = K.faults sink.new }) result }
{
    match read_whole(alloc, shelf, file, MAX_LISTING + 1) {
        Ok(listed) => image_of_bytes(alloc, listed.as_slice(), sink),
        Err(ReadFault::Missing) => Err(give_missing(alloc, file, sink)),
        Err(ReadFault::Failed) => Err(Status::FilesFailed),
        Err(ReadFault::NoMemory) => Err(Status::NoMemory),
    }
}

// The same of bytes.
fn image_of_bytes<K: Sink>(alloc: Global, listed: &[u8], sink: &mut K) -> Result<Image, Status>
    ensures { ListingRead listed.now (K.written sink.old) (K.written sink.new) (K.faults sink.old) (K.faults sink.new) result }
{
    match image_or_line(alloc, listed) {
        Ok(image) => Ok(image),
        Err(ListRefused::Line(line)) => Err(give_listing_refused(alloc, line, sink)),
        Err(ListRefused::NoMemory) => Err(Status::NoMemory),
    }
}

// The image of bytes, or the line that is refused: at the latest the one that holds the byte behind those that a listing may have.
fn image_or_line(alloc: Global, listed: &[u8]) -> Result<Image, ListRefused>
    ensures { ImageOrLine listed.now result }
{
    if listed.len() <= MAX_LISTING {
        return read_list(alloc, listed);
    }
    let front = first_bytes(listed, MAX_LISTING);
    match read_list(alloc, front) {
        Ok(_image) => Err(ListRefused::Line(line_behind(front))),
        Err(refused) => Err(refused),
    }
}

// So many bytes of a text.
fn first_bytes(text: &[u8], count: usize) -> &[u8]
    requires { count ≤ length text.now }
    ensures { result.now ≡ take count text.now }
{
    &text[..count]
}

// The number of the line behind these bytes, the first being 1.
fn line_behind(front: &[u8]) -> u32
    requires { length front.now ≤ 16777216 }
    ensures { result ≡ line_behind_bytes front.now }
{
    let mut line = 1;
    for b in front {
        if *b == b'\n' {
            line += 1;
        }
    }
    line
}

// The answers to an image: whether it can be read for this disk, and whether it can take one more entry.
ghost use Rattle.std.specs.Prelude.{◌≡◌, ◌≤◌, ◌%◌, length};
ghost use Rattle.wire.specs.Choice.{first_failed};
ghost use Rattle.model.specs.Sizes.{entry_size};
ghost use Rattle.model.specs.Image.{same_disk, image_checks, has_room, save_checks};
ghost use Rattle.layout.specs.Answer.{answer_of};

use crate::chain::readable;
use crate::entry::native_of;
use layout::answer::Refusal;
use layout::{ENTRIES, ENTRY};

// Whether a chain is empty or its newest entry is this disk's.
fn same_disk(native: u64, chain: &[u8]) -> bool
    requires { length chain.now % entry_size ≡ 0 }
    ensures { result ≡ same_disk native chain.now (length chain.now) }
{
    match chain.last_chunk::<ENTRY>() {
        None => true,
        Some(newest) => native_of(newest) == native,
    }
}

// The refusals: 2 length, 6 image, 7 other disk.
pub fn image_checks(native: u64, image: &[u8], used: usize) -> Result<(), Refusal>
    ensures { answer_of result ≡ first_failed (image_checks native image.now used) }
{
    if used > image.len() {
        return Err(Refusal::BadLength);
    }
    let chain = &image[..used];
    if !readable(chain) {
        return Err(Refusal::BadImage);
    }
    if !same_disk(native, chain) {
        return Err(Refusal::OtherDisk);
    }
    Ok(())
}

// Whether a save has room: fewer than 117 entries, and 560 more bytes of the buffer.
fn has_room(image: &[u8], used: usize) -> bool
    requires { used ≤ length image.now }
    ensures { result ≡ has_room image.now used }
{
    (used / ENTRY < ENTRIES) & (ENTRY <= image.len() - used)
}

// The refusals: 2 length, 6 image, 7 other disk, 8 full.
pub fn save_checks(native: u64, image: &[u8], used: usize) -> Result<(), Refusal>
    ensures { answer_of result ≡ first_failed (save_checks native image.now used) }
{
    image_checks(native, image, used)?;
    if !has_room(image, used) {
        return Err(Refusal::ImageFull);
    }
    Ok(())
}

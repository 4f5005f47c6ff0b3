// The chain of entries, from the last trailer back, and the form that a save keeps. A chain here is an image up to its used length.
ghost use Rattle.std.specs.Prelude.{◌≡◌, ◌≤◌, ◌%◌, List, ℕ, length};
ghost use Rattle.std.specs.Simd.{first_chunks};
ghost use Rattle.model.specs.Sizes.{entry_size, entry_limit};
ghost use Rattle.model.specs.Image.{Saved, chain_holds, readable, chain_form};
ghost use Rattle.entry_timers.specs.TimersMeaning.{form_number};
ghost use Rattle.image.specs.EntryTests.{NewestIs};

use crate::entry::{Common, common_of, entry_holds, form_of};
use entry_timers::Form;
use layout::{BODY, ENTRY, ENTRY_U32, IMAGE_LIMIT, TRAILER_U32, entry};
use wire::Number;

// "Reading starts at the last trailer and follows the chain back": the entries from `number` down to the first, the last trailer at `at`.
// `newest` is what they must have in common with the newest. The slice is passed by its address, in one word, and the call comes last: it becomes
// a loop, so a chain of any length takes the same stack.
fn chain_holds(newest: Common, entries: &&[[u8; ENTRY]], at: u32, number: u32) -> bool
    requires { (number ≤ length entries.now.now) × (number ≤ entry_limit) }
    ensures { (s : Saved) (image : List ℕ) → NewestIs s newest.native (form_number newest.form) → entries.now.now ≡ first_chunks entry_size (length entries.now.now) image → result ≡ chain_holds s image number at }
{
    if number == 0 {
        return at == entry::NO_TRAILER;
    }
    if at != ENTRY_U32 * number - TRAILER_U32 {
        return false;
    }
    let entry = &entries[number as usize - 1];
    if !entry_holds(newest, entry, number) {
        return false;
    }
    let before = u32::get(entry, BODY + entry::LINK_AT);
    chain_holds(newest, entries, before, number - 1)
}

// Whether a chain is readable.
pub fn readable(chain: &[u8]) -> bool
    ensures { result ≡ readable chain.now (length chain.now) }
{
    let (entries, rest) = chain.as_chunks::<ENTRY>();
    if !rest.is_empty() {
        return false;
    }
    if chain.len() > IMAGE_LIMIT {
        return false;
    }
    match chain.last_chunk::<ENTRY>() {
        None => true,
        Some(newest) => {
            let last = chain.len() as u32 - TRAILER_U32;
            chain_holds(common_of(newest), &entries, last, entries.len() as u32)
        }
    }
}

// "a save keeps the form of the chain it extends .., and an empty image starts with form 2"
pub fn chain_form(chain: &[u8]) -> Form
    requires { length chain.now % entry_size ≡ 0 }
    ensures { form_number result ≡ chain_form chain.now (length chain.now) }
{
    match chain.last_chunk::<ENTRY>() {
        None => Form::Two,
        Some(newest) => form_of(newest),
    }
}

// One entry of the saved image, tested in place: its body and its trailer.
ghost use Rattle.std.specs.Prelude.{◌≡◌, ◌≤◌, ◌+◌, ◌-◌, ◌*◌, ℕ, List};
ghost use Rattle.wire.specs.Parts.{part};
ghost use Rattle.wire.specs.Bytes.{same};
ghost use Rattle.model.specs.Sizes.{body_size, entry_size, entry_limit};
ghost use Rattle.model.specs.Image.{Saved, form_of, saved_at, in_range, alike, tag, tag_place, previous_place, entry_holds};
ghost use Rattle.entry_timers.specs.TimersMeaning.{form_number};
ghost use Rattle.image.specs.EntryTests.{timers_in_place, body_in_place, trailer_in_place, NewestIs};

use entry_timers::Form;
use layout::{BODY, BODY_U32, ENTRY, ENTRY_U32, HISTORY_U16, NATIVE_LIMIT, TRAILER_U32, entry};
use wire::Number;

// "then the letters SCTE"
pub const TAG: [u8; 4] = *b"SCTE";

// What the entries of a chain have in common: "all entries have the same N"; "A chain may not mix forms".
#[derive(Clone, Copy, Debug, PartialEq, Eq)]
pub struct Common {
    pub native: u64,
    pub form: Form,
}

// N of an entry.
#[tactic(auto, unfolding(model::specs::Image::saved_at))]
pub fn native_of(entry: &[u8; ENTRY]) -> u64
    ensures { result ≡ (saved_at entry.now 0).native }
{
    u64::get(entry, entry::NATIVE_AT)
}

// The form of an entry.
#[tactic(auto, unfolding(model::specs::Image::saved_at))]
pub fn form_of(entry: &[u8; ENTRY]) -> Form
    ensures { form_number result ≡ form_of (saved_at entry.now 0).timers }
{
    entry_timers::form_of(entry_timers::timers_at(entry))
}

// .. of an entry.
pub fn common_of(entry: &[u8; ENTRY]) -> Common
    ensures { NewestIs (saved_at entry.now 0) result.native (form_number result.form) }
{
    Common {
        native: native_of(entry),
        form: form_of(entry),
    }
}

// "values in range": N and V, the states of the features, the index, the timers.
#[tactic(auto, unfolding(model::specs::Image::in_range_under, model::specs::Image::saved_at))]
fn values_in_range(entry: &[u8; ENTRY]) -> bool
    ensures { result ≡ in_range (saved_at entry.now 0) }
{
    let native = native_of(entry);
    let visible = u64::get(entry, entry::VISIBLE_AT);
    let cache = u16::get(entry, entry::CACHE_AT);
    let reordering = u16::get(entry, entry::REORDERING_AT);
    let interval = u16::get(entry, entry::INTERVAL_AT);
    let index = u16::get(entry, entry::INDEX_AT);
    let timers = entry_timers::timers_at(entry);
    ((1 <= native) & (native <= NATIVE_LIMIT))
        & ((1 <= visible) & (visible <= native))
        & record_check::states_named(cache, reordering, interval)
        & (index < HISTORY_U16)
        & entry_timers::timers_named(timers)
}

// In form 2 byte 25 is 2; in form 1 it is 0, and so are the places of the timers.
#[tactic(auto, unfolding(crate::specs::EntryTests::timers_in_place))]
fn timers_hold(entry: &[u8; ENTRY]) -> bool
    ensures { result ≡ timers_in_place entry.now 0 }
{
    let form = u8::get(entry, entry::FORM_AT);
    let for_read = u16::get(entry, entry::READ_TIMER_AT);
    let for_write = u16::get(entry, entry::WRITE_TIMER_AT);
    (form == entry::WITH_TIMERS)
        | ((form == entry::WITHOUT_TIMERS) & (for_read == 0) & (for_write == 0))
}

// Whether the body of an entry holds.
#[tactic(auto, unfolding(crate::specs::EntryTests::body_in_place))]
fn body_holds(entry: &[u8; ENTRY]) -> bool
    ensures { result ≡ body_in_place entry.now 0 }
{
    let flag = u8::get(entry, entry::FLAG_AT);
    let options = u8::get(entry, entry::OPTIONS_AT);
    let timers = timers_hold(entry);
    let zero = runs::is_zero(entry, entry::ZEROS_AT, entry::ZEROS);
    let fixed = record_check::table_fixed(entry, entry::TABLE_AT);
    let logged = u16::get(entry, entry::TABLE_INTERVAL_AT);
    let state = u16::get(entry, entry::INTERVAL_AT);
    let ranged = values_in_range(entry);
    (flag <= 1)
        & (options <= entry::OPTIONS_LIMIT)
        & timers
        & zero
        & fixed
        & (logged == state)
        & ranged
}

// Whether an entry is like the newest, with which it has this in common.
#[tactic(auto, unfolding(model::specs::Image::alike))]
fn alike(newest: Common, entry: &[u8; ENTRY]) -> bool
    ensures { (s : Saved) → NewestIs s newest.native (form_number newest.form) → result ≡ alike s (saved_at entry.now 0) }
{
    common_of(entry) == newest
}

// "the place of the previous trailer (FFFFFFFFh for the first)"
pub fn previous_place(number: u32) -> u32
    requires { (1 ≤ number) × (number ≤ entry_limit) }
    ensures { result ≡ previous_place number }
{
    if number == 1 {
        entry::NO_TRAILER
    } else {
        ENTRY_U32 * (number - 1) - TRAILER_U32
    }
}

// Whether the letters end an entry.
fn tag_holds(entry: &[u8; ENTRY]) -> bool
    ensures { result ≡ same (part entry.now (body_size + tag_place) 4) tag }
{
    runs::same_part(entry, BODY + entry::TAG_AT, &TAG, 0, entry::TAG)
}

// Whether the trailer of an entry is that of this number.
#[tactic(auto, unfolding(crate::specs::EntryTests::trailer_in_place))]
fn trailer_holds(entry: &[u8; ENTRY], number: u32) -> bool
    requires { (1 ≤ number) × (number ≤ entry_limit) }
    ensures { result ≡ trailer_in_place entry.now body_size number }
{
    let size = u32::get(entry, BODY);
    let before = u32::get(entry, BODY + entry::LINK_AT);
    let named = u32::get(entry, BODY + entry::NUMBER_AT);
    let letters = tag_holds(entry);
    (size == BODY_U32) & (before == previous_place(number)) & (named == number) & letters
}

// Whether entry `number` of an image holds, given what it has in common with the newest.
pub fn entry_holds(newest: Common, entry: &[u8; ENTRY], number: u32) -> bool
    requires { (1 ≤ number) × (number ≤ entry_limit) }
    ensures { (s : Saved) (image : List ℕ) → NewestIs s newest.native (form_number newest.form) → entry.now ≡ part image (entry_size * (number - 1)) entry_size → result ≡ entry_holds s image number }
{
    let body = body_holds(entry);
    let same = alike(newest, entry);
    let trailer = trailer_holds(entry, number);
    body & same & trailer
}

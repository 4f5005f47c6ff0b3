// How a save writes one entry, from the record's bytes.
ghost use Rattle.std.specs.Prelude.{◌≡◌, true, ℕ, ◌+◌, ◌*◌, ◌/◌, ◌%◌, ◌≤◌, ◌<◌, length};
ghost use Rattle.std.proofs.lemmas.List.Edits.{sets};
ghost use Rattle.wire.specs.Numbers.{get};
ghost use Rattle.wire.specs.Choice.{bit};
ghost use Rattle.wire.specs.Parts.{zeros};
ghost use Rattle.wire.specs.Layout.{stores, placed, form};
ghost use Rattle.model.specs.Sizes.{body_size, trailer_size, entry_size, entry_limit};
ghost use Rattle.model.specs.Image.{saved_from, head_size, sizes_of, features_of, timer_fields, head_fields, trailer_bytes, saved_image};
ghost use Rattle.store.specs.Areas.{record_size};
ghost use Rattle.store.specs.Record.{flag_of, decode};
ghost use Rattle.store.specs.Sound.{sound};
ghost use Rattle.entry_timers.specs.TimersMeaning.{form_number};

use entry_timers::{Form, Timers, timers_in};
use image::{TAG, chain_form, previous_place};
use layout::{BODY, BODY_U32, ENTRY, SECTOR, TABLE_AT, entry, field, table};
use wire::Number;

// Writes trailer `number` at `at`.
fn put_trailer(image: &mut [u8], at: usize, number: u32)
    requires { (at + trailer_size ≤ length image.old) × (1 ≤ number) × (number ≤ entry_limit) }
    ensures { image.new ≡ sets image.old at (trailer_bytes number) }
{
    runs::zero_part(image, at, entry::TAG_AT);
    BODY_U32.put(image, at);
    previous_place(number).put(image, at + entry::LINK_AT);
    number.put(image, at + entry::NUMBER_AT);
    runs::copy_part(image, at + entry::TAG_AT, &TAG, 0, entry::TAG);
}

// The flag in the record's byte at `at`, as 0 or 1.
fn flag_bit(device: &[u8], at: usize) -> u8
    requires { at + 1 ≤ length device.now }
    ensures value { result ≡ bit (flag_of (get 1 device.now at)) }
    ensures small { result ≤ 1 }
{
    u8::from(u8::get(device, at) == 1)
}

// "kept marks in bits 0 to 2 of byte 24"
fn options(device: &[u8]) -> u8
    requires { length device.now ≡ record_size }
    ensures { result ≡ bit (flag_of (get 1 device.now 34)) + 2 * bit (flag_of (get 1 device.now 35)) + 4 * bit (flag_of (get 1 device.now 36)) }
{
    flag_bit(device, field::WRITE_CACHE_KEPT_AT)
        + entry::REORDERING_OPTION * flag_bit(device, field::REORDERING_KEPT_AT)
        + entry::LOG_INTERVAL_OPTION * flag_bit(device, field::LOG_INTERVAL_KEPT_AT)
}

// Clears the head of a body at `at`, and writes N, V, the flag and the life maximum.
#[tactic(auto, unfolding(model::specs::Image::saved_from, store::specs::Record::decode))]
fn put_sizes(image: &mut [u8], at: usize, device: &[u8])
    requires { (at + head_size ≤ length image.old) × (length device.now ≡ record_size) }
    ensures { (entry_form : ℕ) → image.new ≡ stores (placed at (sizes_of (saved_from entry_form (decode device.now).device))) (sets image.old at (zeros head_size)) }
{
    runs::zero_part(image, at, entry::TABLE_AT);
    u64::get(device, field::NATIVE_AT).put(image, at + entry::NATIVE_AT);
    u64::get(device, field::VISIBLE_AT).put(image, at + entry::VISIBLE_AT);
    flag_bit(device, field::INITIALIZED_AT).put(image, at + entry::FLAG_AT);
    u8::get(device, field::LIFE_MAXIMUM_AT).put(image, at + entry::LIFE_AT);
}

// Writes the features of a body at `at`, and their marks.
#[tactic(auto, unfolding(model::specs::Image::saved_from, store::specs::Record::decode))]
fn put_features(image: &mut [u8], at: usize, device: &[u8])
    requires { (at + head_size ≤ length image.old) × (length device.now ≡ record_size) }
    ensures { (entry_form : ℕ) → image.new ≡ stores (placed at (features_of (saved_from entry_form (decode device.now).device))) image.old }
{
    u16::get(device, field::WRITE_CACHE_AT).put(image, at + entry::CACHE_AT);
    u16::get(device, field::REORDERING_AT).put(image, at + entry::REORDERING_AT);
    u16::get(device, table::RECORD_INTERVAL_AT).put(image, at + entry::INTERVAL_AT);
    options(device).put(image, at + entry::OPTIONS_AT);
}

// Writes the timers of a body of this form at `at`.
#[tactic(auto, unfolding(model::specs::Image::saved_from, store::specs::Record::decode))]
fn put_timers(image: &mut [u8], at: usize, form: Form, device: &[u8])
    requires { (at + body_size ≤ length image.old) × (length device.now ≡ record_size) }
    ensures { image.new ≡ stores (placed at (timer_fields (saved_from (form_number form) (decode device.now).device).timers)) image.old }
{
    let timers = Timers {
        read: u16::get(device, field::READ_TIMER_AT),
        write: u16::get(device, field::WRITE_TIMER_AT),
    };
    entry_timers::put_timers(image, at, timers_in(form, timers));
}

// Writes the head of a body of this form at `at`.
fn put_head(image: &mut [u8], at: usize, entry_form: Form, device: &[u8])
    requires { (at + body_size ≤ length image.old) × (length device.now ≡ record_size) }
    ensures { image.new ≡ sets image.old at (form head_size (head_fields (saved_from (form_number entry_form) (decode device.now).device))) }
{
    put_sizes(image, at, device);
    put_features(image, at, device);
    put_timers(image, at, entry_form, device);
}

// "A save adds one entry behind the used length; other bytes stay." W-204: "a save keeps the form of the chain it extends"
pub fn put_entry(image: &mut [u8], used: usize, device: &[u8])
    requires device_value { sound device.now ≡ true }
    requires room { (used + entry_size ≤ length image.old) × (used % entry_size ≡ 0) × (used / entry_size < entry_limit) }
    ensures { image.new ≡ saved_image (decode device.now).device image.old used }
{
    let entry_form = chain_form(&image[..used]);
    put_head(image, used, entry_form, device);
    runs::copy_part(image, used + entry::TABLE_AT, device, TABLE_AT, SECTOR);
    put_trailer(image, used + BODY, (used / ENTRY) as u32 + 1);
}

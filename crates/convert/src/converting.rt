// A saved image converted from one form to the other (W-204): the checks, and byte 25 and the timers of every entry.
ghost use Rattle.std.specs.Prelude.{◌≡◌, ◌+◌, ◌*◌, ◌≤◌, ◌↔◌, true, length, IsTrue, IfOk, All};
ghost use Rattle.wire.specs.Choice.{first_failed};
ghost use Rattle.model.specs.Sizes.{entry_size};
ghost use Rattle.model.specs.Image.{timers_at};
ghost use Rattle.model.specs.Convert.{converted_entry, converted, fits_form, convert_checks};
ghost use Rattle.store.specs.Entries.{convert_bytes};
ghost use Rattle.entry_timers.specs.TimersMeaning.{form_number, as_timers};
ghost use Rattle.layout.specs.Answer.{answer_of};

use entry_timers::{Form, Timers, put_timers, timers_at, timers_in, timers_meant};
use image::readable;
use layout::ENTRY;
use layout::answer::Refusal;

// "going back from timers other than 70 and 70": whether an entry's timers can be in this form.
fn fits_form(form: Form, timers: Option<Timers>) -> bool
    ensures { result ≡ fits_form (form_number form) (as_timers timers) }
{
    (form == Form::Two) | (timers_meant(timers) == Timers::AT_POWER_ON)
}

// Whether those of all entries can.
fn all_fit(form: Form, entries: &[[u8; ENTRY]]) -> bool
    ensures { IsTrue result ↔ All (λ e. fits_form (form_number form) (timers_at e 0) ≡ true) entries.now }
{
    entries
        .iter()
        .all(|entry| fits_form(form, timers_at(entry)))
}

// The form asked for; or the refusals: 2 length, 5 form, 6 image, 9 other timers.
fn convert_checks(form: u32, image: &[u8], used: usize) -> Result<Form, Refusal>
    ensures answer { answer_of result ≡ first_failed (convert_checks form image.now used) }
    ensures form { IfOk result (λ f. form_number f ≡ form) }
{
    if used > image.len() {
        return Err(Refusal::BadLength);
    }
    let Ok(form) = Form::try_from(form) else {
        return Err(Refusal::BadValue);
    };
    let chain = &image[..used];
    if !readable(chain) {
        return Err(Refusal::BadImage);
    }
    let (entries, _) = chain.as_chunks::<ENTRY>();
    if !all_fit(form, entries) {
        return Err(Refusal::OtherTimers);
    }
    Ok(form)
}

// Writes byte 25 and the timers of the entry at `at`, in this form.
fn convert_entry(form: Form, image: &mut [u8], at: usize)
    requires { at + entry_size ≤ length image.old }
    ensures { image.new ≡ converted_entry (form_number form) at image.old }
{
    let entry = image[at..at + ENTRY].as_array().unwrap();
    let timers = timers_meant(timers_at(entry));
    put_timers(image, at, timers_in(form, timers));
}

// .. of the first `count` entries.
fn convert_entries(form: Form, image: &mut [u8], count: usize)
    requires { entry_size * count ≤ length image.old }
    ensures { image.new ≡ converted (form_number form) image.old count }
{
    for k in 0..count {
        convert_entry(form, image, ENTRY * k);
    }
}

// "Convert a whole image from form 1 to form 2 and back"
pub fn convert(image: &mut [u8], used: u64, form: u32) -> Result<(), Refusal>
    ensures value { answer_of result ≡ (convert_bytes image.old used form).answer }
    ensures image { image.new ≡ (convert_bytes image.old used form).image }
{
    let at = used as usize;
    let form = convert_checks(form, image, at)?;
    convert_entries(form, image, at / ENTRY);
    Ok(())
}

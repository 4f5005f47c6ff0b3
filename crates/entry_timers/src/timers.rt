// What an entry holds of the recovery timers (W-204), read, judged and written.
ghost use Rattle.std.specs.Prelude.{◌≡◌, ◌+◌, ◌≤◌, length};
ghost use Rattle.wire.specs.Layout.{stores, placed};
ghost use Rattle.model.specs.Sizes.{body_size};
ghost use Rattle.model.specs.Image.{form_of, timers_in, timers_meant, timer_numbers, timer_fields, timers_at, timers_named};
ghost use Rattle.entry_timers.specs.TimersMeaning.{form_number, IsForm, as_timers};

use layout::{ENTRY, entry};
use record::Settings;
use wire::Number;

// The read and the write timer of an entry of form 2. An entry of form 1 has none.
#[derive(Clone, Copy, Debug, PartialEq, Eq)]
pub struct Timers {
    pub read: u16,
    pub write: u16,
}

impl Timers {
    // W-203: "Both error recovery timers shall be 70 (7 seconds) at power-on."
    pub const AT_POWER_ON: Timers = Timers {
        read: Settings::POWER_ON_TIMER,
        write: Settings::POWER_ON_TIMER,
    };
}

// The forms of an entry, by their numbers: "form 1 leaves the timers out"
#[derive(Clone, Copy, Debug, PartialEq, Eq)]
pub enum Form {
    One = entry::FORM_1 as isize,
    Two = entry::FORM_2 as isize,
}

// A number that no form has.
#[derive(Clone, Copy, Debug, PartialEq, Eq)]
pub struct UnknownForm(pub u32);

impl TryFrom<u32> for Form {
    type Error = UnknownForm;

    ghost try_from_gives = { IsForm };

    fn try_from(number: u32) -> Result<Self, UnknownForm> {
        match number {
            entry::FORM_1 => Ok(Form::One),
            entry::FORM_2 => Ok(Form::Two),
            _ => Err(UnknownForm(number)),
        }
    }
}

// The form of an entry with these timers.
pub fn form_of(timers: Option<Timers>) -> Form
    ensures { form_number result ≡ form_of (as_timers timers) }
{
    match timers {
        None => Form::One,
        Some(_) => Form::Two,
    }
}

// "form 1 leaves the timers out"
pub fn timers_in(form: Form, timers: Timers) -> Option<Timers>
    ensures { as_timers result ≡ timers_in (form_number form) timers.read timers.write }
{
    match form {
        Form::One => None,
        Form::Two => Some(timers),
    }
}

// "Form 1 .. means 70 and 70"
pub fn timers_meant(timers: Option<Timers>) -> Timers
    ensures { (result.read, result.write) ≡ timers_meant (as_timers timers) }
{
    timers.unwrap_or(Timers::AT_POWER_ON)
}

// "A saved timer of 1 to 9 is out of range."
pub fn timers_named(timers: Option<Timers>) -> bool
    ensures { result ≡ timers_named (as_timers timers) }
{
    match timers {
        None => true,
        Some(t) => record_check::timer_named(t.read) & record_check::timer_named(t.write),
    }
}

// The timers of an entry.
pub fn timers_at(entry: &[u8; ENTRY]) -> Option<Timers>
    ensures { as_timers result ≡ timers_at entry.now 0 }
{
    if u8::get(entry, entry::FORM_AT) != entry::WITH_TIMERS {
        return None;
    }
    Some(Timers {
        read: u16::get(entry, entry::READ_TIMER_AT),
        write: u16::get(entry, entry::WRITE_TIMER_AT),
    })
}

// Byte 25, the read and the write timer: "Form 1 has byte 25 = 0"
fn timer_numbers(timers: Option<Timers>) -> (u8, u16, u16)
    ensures { result ≡ timer_numbers (as_timers timers) }
{
    match timers {
        None => (entry::WITHOUT_TIMERS, 0, 0),
        Some(t) => (entry::WITH_TIMERS, t.read, t.write),
    }
}

// Writes the timers of the body at `at`, in the form that they have.
pub fn put_timers(image: &mut [u8], at: usize, timers: Option<Timers>)
    requires { at + body_size ≤ length image.old }
    ensures { image.new ≡ stores (placed at (timer_fields (as_timers timers))) image.old }
{
    let (form, read, write) = timer_numbers(timers);
    form.put(image, at + entry::FORM_AT);
    read.put(image, at + entry::READ_TIMER_AT);
    write.put(image, at + entry::WRITE_TIMER_AT);
}

// The owner steps on the record: lock, unlock, set V, sample.
ghost use Rattle.std.specs.Prelude.{◌≡◌, [], ◌∷◌};
ghost use Rattle.model.specs.Owner.{set_lock};
ghost use Rattle.model.specs.Step.{set_visible};
ghost use Rattle.store.specs.Entries.{sound_record, device_entry, lock_bytes, unlock_bytes, owner_checks, set_visible_bytes, sample_bytes};
ghost use Rattle.wire.specs.Choice.{first_failed, attempt};
ghost use Rattle.layout.specs.Answer.{answer_of};

use layout::answer::Refusal;

// "Locking, unlocking and setting V do the same as other requests": they stop a fill, and nothing stays pending.
fn put_lock(device: &mut [u8], locked: bool) -> Result<(), Refusal>
    ensures value { answer_of result ≡ (attempt (device_entry (sound_record device.old ∷ []) (set_lock locked) device.old)).answer }
    ensures device { device.new ≡ (attempt (device_entry (sound_record device.old ∷ []) (set_lock locked) device.old)).record_area }
{
    if !record_check::sound(device) {
        return Err(Refusal::BadRecord);
    }
    let d = record::decode(device);
    let e = device_update::set_lock(d, locked);
    record_write::write(device, e);
    Ok(())
}

pub fn lock(device: &mut [u8]) -> Result<(), Refusal>
    ensures value { answer_of result ≡ (lock_bytes device.old).answer }
    ensures device { device.new ≡ (lock_bytes device.old).record_area }
{
    put_lock(device, true)
}

pub fn unlock(device: &mut [u8]) -> Result<(), Refusal>
    ensures value { answer_of result ≡ (unlock_bytes device.old).answer }
    ensures device { device.new ≡ (unlock_bytes device.old).record_area }
{
    put_lock(device, false)
}

// "V asked is 0 or above N": 5.
fn visible_checks(device: &[u8], v: u64) -> Result<(), Refusal>
    ensures { answer_of result ≡ first_failed (owner_checks (set_visible v) device.now) }
{
    if !record_check::sound(device) {
        return Err(Refusal::BadRecord);
    }
    let native = record::native_at(device);
    if !((1 <= v) & (v <= native)) {
        return Err(Refusal::BadValue);
    }
    Ok(())
}

pub fn set_visible(device: &mut [u8], v: u64) -> Result<(), Refusal>
    ensures value { answer_of result ≡ (set_visible_bytes device.old v).answer }
    ensures device { device.new ≡ (set_visible_bytes device.old v).record_area }
{
    visible_checks(device, v)?;
    let d = record::decode(device);
    let e = device_update::set_visible(d, v);
    record_write::write(device, e);
    Ok(())
}

pub fn sample(device: &mut [u8], reading: u8) -> Result<(), Refusal>
    ensures value { answer_of result ≡ (sample_bytes device.old reading).answer }
    ensures device { device.new ≡ (sample_bytes device.old reading).record_area }
{
    if !record_check::sound(device) {
        return Err(Refusal::BadRecord);
    }
    temperature::sample(device, reading);
    Ok(())
}

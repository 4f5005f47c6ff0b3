// The owner steps on the record: lock, unlock, set V, sample.
ghost use Rattle.std.specs.Prelude.{◌≡◌};
ghost use Rattle.store.specs.Entries.{lock_bytes, unlock_bytes, set_visible_bytes, sample_bytes};
ghost use Rattle.layout.specs.Answer.{answer_of};

use layout::answer::Refusal;

pub fn sct_lock(device: &mut [u8]) -> Result<(), Refusal>
    ensures value { answer_of result ≡ (lock_bytes device.old).answer }
    ensures device { device.new ≡ (lock_bytes device.old).record_area }
{
    owner_steps::lock(device)
}

pub fn sct_unlock(device: &mut [u8]) -> Result<(), Refusal>
    ensures value { answer_of result ≡ (unlock_bytes device.old).answer }
    ensures device { device.new ≡ (unlock_bytes device.old).record_area }
{
    owner_steps::unlock(device)
}

pub fn sct_set_visible(device: &mut [u8], v: u64) -> Result<(), Refusal>
    ensures value { answer_of result ≡ (set_visible_bytes device.old v).answer }
    ensures device { device.new ≡ (set_visible_bytes device.old v).record_area }
{
    owner_steps::set_visible(device, v)
}

pub fn sct_sample(device: &mut [u8], reading: u8) -> Result<(), Refusal>
    ensures value { answer_of result ≡ (sample_bytes device.old reading).answer }
    ensures device { device.new ≡ (sample_bytes device.old reading).record_area }
{
    owner_steps::sample(device, reading)
}

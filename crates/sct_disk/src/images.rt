// What is done with a saved image: the steps save and power-on, and its conversion.
ghost use Rattle.std.specs.Prelude.{◌≡◌};
ghost use Rattle.model.specs.Disk.{disk_of};
ghost use Rattle.store.specs.Entries.{save_bytes, power_on_bytes, convert_bytes};
ghost use Rattle.layout.specs.Answer.{answer_of};

use layout::answer::Refusal;

// "A save adds one entry behind the used length; other bytes stay."
pub fn sct_save(device: &[u8], image: &mut [u8], used: u64) -> Result<(), Refusal>
    ensures value { answer_of result ≡ (save_bytes device.now image.old used).answer }
    ensures image { image.new ≡ (save_bytes device.now image.old used).image }
{
    image_steps::save(device, image, used)
}

// "Power-on from length 0 ..; otherwise the newest entry"; "private area all zeros"
pub fn sct_power_on(
    device: &mut [u8],
    area: &mut [u8],
    disk: &[u8],
    check_area: &[u8],
    image: &[u8],
    used: u64,
) -> Result<(), Refusal>
    ensures value { answer_of result ≡ (power_on_bytes device.old area.old (disk_of disk.now check_area.now) image.now used).answer }
    ensures device { device.new ≡ (power_on_bytes device.old area.old (disk_of disk.now check_area.now) image.now used).record_area }
    ensures area { area.new ≡ (power_on_bytes device.old area.old (disk_of disk.now check_area.now) image.now used).private_area }
{
    image_steps::power_on(device, area, disk, check_area, image, used)
}

// "Convert a whole image from form 1 to form 2 and back" (W-204)
pub fn sct_convert(image: &mut [u8], used: u64, form: u32) -> Result<(), Refusal>
    ensures value { answer_of result ≡ (convert_bytes image.old used form).answer }
    ensures image { image.new ≡ (convert_bytes image.old used form).image }
{
    convert::convert(image, used, form)
}

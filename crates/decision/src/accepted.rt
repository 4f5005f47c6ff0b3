// What an accepted key decides: the device after it, and its reply.
ghost use Rattle.std.specs.Prelude.{◌≡◌, List, ℕ, ◌<◌, length};
ghost use Rattle.wire.specs.Choice.{bit};
ghost use Rattle.model.specs.Sizes.{port_count};
ghost use Rattle.model.specs.Registers.{data_of};
ghost use Rattle.model.specs.Key.{pattern_sector, set_feature};
ghost use Rattle.model.specs.Decide.{feature, long_transfer, carry_out};
ghost use Rattle.record.specs.DeviceMeaning.{as_transfer, as_direction, as_settings, as_feature_name};
ghost use Rattle.key.specs.VerdictMeaning.{as_action};
ghost use Rattle.decision.specs.DecisionMeaning.{Decided};

use crate::decision::{Decision, Sending, Writing, replied, to_write};
use key::Action;
use record::{Device, Direction, FeatureName, Settings, Transfer};

// The transfer that a long sector access announces.
fn long_transfer(dir: Direction, lba: u64) -> Transfer
    ensures { as_transfer result ≡ long_transfer (as_direction dir) lba }
{
    match dir {
        Direction::Read => Transfer::ReadLong(lba),
        Direction::Write => Transfer::WriteLong(lba),
    }
}

fn state_of(name: FeatureName, s: Settings) -> u16
    ensures { result ≡ (feature (as_feature_name name) (as_settings s)).state }
{
    let f = settings::feature(name, s);
    f.state
}

// "the mark, 0 or 1"
fn option_of(name: FeatureName, s: Settings) -> u16
    ensures { result ≡ bit (feature (as_feature_name name) (as_settings s)).persistent }
{
    let f = settings::feature(name, s);
    wire::bit_of(f.persistent) as u16
}

// "Any set of feature 3 empties the temperature history."
fn feature_set(d: Device, p: usize, name: FeatureName, state: u16, keep: bool) -> Decision
    ensures { (m : List ℕ) → Decided m (carry_out (set_feature (as_feature_name name) state keep) p) d result }
{
    let device = settings::set_feature(d, name, state, keep);
    let reply = reply::good(0, 0);
    let empties = settings::is_interval(name);
    Decision {
        device,
        reply,
        writes: Writing::Nothing,
        sends: Sending::Nothing,
        empties,
    }
}

// An accepted key of port p. "The value asked for by timers 2 and feature 2 or 3 .. stands in Sector Count (low) and LBA Low (high); other
// accepted keys have 0 there. LBA Mid is 1 if a sector is owed (fill function 2, table), else 0." "Pattern fill starts at once". W-202: "either
// key's reply has 2 in Sector Count and LBA Mid".
pub fn carry_out(d: Device, p: usize, action: Action) -> Decision
    requires { (p < port_count) × (length d.slots ≡ port_count) }
    ensures { (m : List ℕ) → Decided m (carry_out (as_action action (pattern_sector (data_of m))) p) d result }
{
    let s = d.settings;
    match action {
        Action::AccessLong(dir, lba) => replied(
            device_update::with_pending(d, p, long_transfer(dir, lba)),
            reply::good(2, 2),
        ),
        Action::FillPattern(first, end) => to_write(d, Writing::PatternFill(first, end)),
        Action::FillSector(first, end) => replied(
            device_update::with_pending(d, p, Transfer::FillData(first, end)),
            reply::good(0, 1),
        ),
        Action::SetTimer(dir, n) => replied(settings::set_timer(d, dir, n), reply::good(0, 0)),
        Action::ReturnTimer(dir) => replied(d, reply::good(settings::timer(dir, s), 0)),
        Action::SetFeature(name, n, keep) => feature_set(d, p, name, n, keep),
        Action::ReturnState(name) => replied(d, reply::good(state_of(name, s), 0)),
        Action::ReturnOption(name) => replied(d, reply::good(option_of(name, s), 0)),
        Action::SendTable => replied(
            device_update::with_pending(d, p, Transfer::Table),
            reply::good(0, 1),
        ),
    }
}

// The key sector: how it is read and checked in the paper's order, and what an accepted key asks for.
ghost use Rattle.std.specs.Prelude.{◌≡◌, ℕ, ◌+◌, ◌≤◌, List, [], ◌∷◌, length, eqb, leb, if◌then◌else◌};
ghost use Rattle.wire.specs.Choice.{between};
ghost use Rattle.wire.specs.Parts.{part};
ghost use Rattle.model.specs.Sizes.{sector_size};
ghost use Rattle.model.specs.Device.{Device};
ghost use Rattle.model.specs.Key.{word, long_lba, start, count, highest_state, direction_of, feature_name, long_checks, fill_checks, timer_checks, feature_checks, table_checks, fill_end, fill_pattern, fill_sector, long_action, fill_action, timer_action, set_feature, return_state, return_option, feature_action, send_table, pattern_sector, judged, judge_key};
ghost use Rattle.record.specs.DeviceMeaning.{as_direction, as_feature_name};
ghost use Rattle.key.specs.VerdictMeaning.{as_action, as_verdict, refusal_of};

use crate::refusal::Refusal;
use layout::sct;
use record::{Direction, FeatureName};
use wire::Number;

// A long sector access has its direction and LBA. A fill's numbers are its first sector and its end. A timer is set to a number of 100 ms; a
// feature to a state, with true if the option is 1: "Option 1 keeps a state over power".
#[derive(Clone, Copy)]
pub enum Action {
    AccessLong(Direction, u64),
    FillPattern(u64, u64),
    FillSector(u64, u64),
    SetTimer(Direction, u16),
    ReturnTimer(Direction),
    SetFeature(FeatureName, u16, bool),
    ReturnState(FeatureName),
    ReturnOption(FeatureName),
    SendTable,
}

// A key is accepted with what it asks for, or refused with its code and (W-206) the word that caused it.
#[derive(Clone, Copy)]
pub enum Verdict {
    Accepted(Action),
    Rejected(Refusal),
}

// Why a key is refused. For an accepted one, of which nobody asks it, zeros.
pub fn refusal_of(key: Verdict) -> Refusal
    ensures { result ≡ refusal_of key }
{
    match key {
        Verdict::Accepted(_) => Refusal { code: 0, word: 0 },
        Verdict::Rejected(refusal) => refusal,
    }
}

// Whether low ≤ x ≤ high.
fn between(low: u16, x: u16, high: u16) -> bool
    ensures { result ≡ between low x high }
{
    (low <= x) & (x <= high)
}

// "Count 0 means up to the last user LBA."
fn fill_end(first: u64, sectors: u64, visible: u64) -> u64
    requires { first + sectors ≤ visible }
    ensures { (k : List ℕ) → start k ≡ first → count k ≡ sectors → result ≡ fill_end visible k }
{
    if sectors == 0 {
        return visible;
    }
    first + sectors
}

// Whether Start + Count is at most the visible size. The sum is not computed: it may not fit in 64 bits.
fn sum_within(first: u64, sectors: u64, visible: u64) -> bool
    requires { first ≤ visible }
    ensures { result ≡ leb (first + sectors) visible }
{
    sectors <= visible - first
}

// "functions 1 (read) and 2 (write)"; of timers: "word 2 is 1 read or 2 write"
fn direction_of(n: u16) -> Direction
    ensures { as_direction result ≡ direction_of n }
{
    if n == sct::READ {
        return Direction::Read;
    }
    Direction::Write
}

// Action 1 (W-202): "functions 1 (read) and 2 (write), LBA in words 2 to 5"; "function 000Ah, LBA 0002h after it".
fn long_key(function: u16, lba: u64, visible: u64) -> Verdict
    ensures { (k : List ℕ) → word k 1 ≡ function → long_lba k ≡ lba → as_verdict result (pattern_sector k) ≡ judged (long_checks visible k) (long_action k) }
{
    if !between(sct::READ, function, sct::WRITE) {
        return Verdict::Rejected(Refusal::LONG_FUNCTION);
    }
    if lba >= visible {
        return Verdict::Rejected(Refusal::LONG_LBA);
    }
    let dir = direction_of(function);
    Verdict::Accepted(Action::AccessLong(dir, lba))
}

// "1 pattern, 2 sector"
fn fill_asked(function: u16, first: u64, end: u64) -> Action
    ensures { (sector : List ℕ) → as_action result sector ≡ (if eqb function 1 then fill_pattern first end sector else fill_sector first end) }
{
    if function == sct::FILL_PATTERN {
        return Action::FillPattern(first, end);
    }
    Action::FillSector(first, end)
}

// Action 2: "1 pattern, 2 sector; else 0001h"; then 0002h: "Refuse when Start is above the last user LBA, or when Count is not 0 and Start +
// Count exceeds the visible size."
fn fill_key(function: u16, first: u64, sectors: u64, visible: u64) -> Verdict
    requires { 1 ≤ visible }
    ensures { (k : List ℕ) → word k 1 ≡ function → start k ≡ first → count k ≡ sectors → as_verdict result (pattern_sector k) ≡ judged (fill_checks visible k) (fill_action visible k) }
{
    if !between(sct::FILL_PATTERN, function, sct::FILL_SECTOR) {
        return Verdict::Rejected(Refusal::FILL_FUNCTION);
    }
    let last = visible - 1;
    if first > last {
        return Verdict::Rejected(Refusal::FILL_START);
    }
    if !sum_within(first, sectors, visible) {
        return Verdict::Rejected(Refusal::FILL_SUM);
    }
    let end = fill_end(first, sectors, visible);
    let action = fill_asked(function, first, end);
    Verdict::Accepted(action)
}

// "0006h (read) or 0007h (write)", of word 3
fn timer_refusal(name: u16) -> Refusal
    ensures { (result.code ≡ (if eqb name 1 then 0x0006 else 0x0007)) × (result.word ≡ 3) }
{
    if name == sct::READ {
        return Refusal::TIMER_READ;
    }
    Refusal::TIMER_WRITE
}

// Action 3: "1 set, 2 return; else 0004h"; "word 2 is 1 read or 2 write, else 0005h";
// "set: word 3 in 100 ms, 1 to 9 gives 0006h (read) or 0007h (write); 0 is off"
fn timer_key(function: u16, name: u16, time: u16) -> Verdict
    ensures { (k : List ℕ) → word k 1 ≡ function → word k 2 ≡ name → word k 3 ≡ time → as_verdict result (pattern_sector k) ≡ judged (timer_checks k) (timer_action k) }
{
    if !between(sct::TIMER_SET, function, sct::TIMER_RETURN) {
        return Verdict::Rejected(Refusal::TIMER_FUNCTION);
    }
    if !between(sct::READ, name, sct::WRITE) {
        return Verdict::Rejected(Refusal::TIMER_NAME);
    }
    let dir = direction_of(name);
    if function == sct::TIMER_SET {
        if between(1, time, sct::TIMER_TOO_SHORT) {
            return Verdict::Rejected(timer_refusal(name));
        }
        return Verdict::Accepted(Action::SetTimer(dir, time));
    }
    Verdict::Accepted(Action::ReturnTimer(dir))
}

// "Feature states: 1 (write cache) ..; 2 (reordering) ..; 3 (log interval) .."
fn feature_name(name: u16) -> FeatureName
    ensures { as_feature_name result ≡ feature_name name }
{
    if name == sct::WRITE_CACHE {
        return FeatureName::WriteCache;
    }
    if name == sct::REORDERING {
        return FeatureName::Reordering;
    }
    FeatureName::LogInterval
}

// "Feature states: 1 (write cache) 1 to 3; 2 (reordering) 1 or 2; 3 (log interval) 1 to 65,535 minutes."
fn highest_state(name: u16) -> u16
    ensures { result ≡ highest_state name }
{
    if name == sct::WRITE_CACHE {
        return sct::WRITE_CACHE_LIMIT;
    }
    if name == sct::REORDERING {
        return sct::REORDERING_LIMIT;
    }
    sct::LOG_INTERVAL_LIMIT
}

// "word 4 other than 0 or 1 000Fh"; "Option 1 keeps a state over power"
fn feature_set(feature: FeatureName, state: u16, option: u16) -> Verdict
    ensures { (sector : List ℕ) → as_verdict result sector ≡ judged ((leb option 1, 0x000F, 4) ∷ []) (set_feature (as_feature_name feature) state (eqb option 1)) }
{
    if option > 1 {
        return Verdict::Rejected(Refusal::FEATURE_OPTION);
    }
    Verdict::Accepted(Action::SetFeature(feature, state, option == 1))
}

// "2 state, 3 options"
fn feature_returned(function: u16, feature: FeatureName) -> Action
    ensures { (sector : List ℕ) → as_action result sector ≡ (if eqb function 2 then return_state (as_feature_name feature) else return_option (as_feature_name feature)) }
{
    if function == sct::FEATURE_STATE {
        return Action::ReturnState(feature);
    }
    Action::ReturnOption(feature)
}

// Action 4: "1 set, 2 state, 3 options; else 000Ch"; "word 2 is 1 to 3, else 000Dh";
// "set only: word 3 invalid 000Eh, then word 4 other than 0 or 1 000Fh"
fn feature_key(function: u16, name: u16, state: u16, option: u16) -> Verdict
    ensures { (k : List ℕ) → word k 1 ≡ function → word k 2 ≡ name → word k 3 ≡ state → word k 4 ≡ option → as_verdict result (pattern_sector k) ≡ judged (feature_checks k) (feature_action k) }
{
    if !between(sct::FEATURE_SET, function, sct::FEATURE_OPTIONS) {
        return Verdict::Rejected(Refusal::FEATURE_FUNCTION);
    }
    if !between(sct::WRITE_CACHE, name, sct::LOG_INTERVAL) {
        return Verdict::Rejected(Refusal::FEATURE_NAME);
    }
    let feature = feature_name(name);
    if function == sct::FEATURE_SET {
        if !between(1, state, highest_state(name)) {
            return Verdict::Rejected(Refusal::FEATURE_STATE);
        }
        return feature_set(feature, state, option);
    }
    let action = feature_returned(function, feature);
    Verdict::Accepted(action)
}

// Action 5: "1; else 0001h"; "word 2 is 2, else 0011h"
fn table_key(function: u16, name: u16) -> Verdict
    ensures { (k : List ℕ) → word k 1 ≡ function → word k 2 ≡ name → as_verdict result (pattern_sector k) ≡ judged (table_checks k) send_table }
{
    if function != sct::TABLE_READ {
        return Verdict::Rejected(Refusal::TABLE_FUNCTION);
    }
    if name != sct::HISTORY_TABLE {
        return Verdict::Rejected(Refusal::TABLE_NAME);
    }
    Verdict::Accepted(Action::SendTable)
}

// The key sector at `at`: the lock comes first, with 0012h; then an action that is not 1 to 5, with 0010h; then the action's checks.
// A key's checks read only the lock and V of the device.
pub fn read_key(area: &[u8], at: usize, locked: bool, visible: u64) -> Verdict
    requires { (at + sector_size ≤ length area.now) × (1 ≤ visible) }
    ensures { (d : Device) → d.locked ≡ locked → d.visible ≡ visible → as_verdict result (pattern_sector (part area.now at sector_size)) ≡ judge_key d (part area.now at sector_size) }
{
    if locked {
        return Verdict::Rejected(Refusal::KEY_LOCKED);
    }
    let action = u16::get(area, at);
    if !between(sct::ACTION_LONG, action, sct::ACTION_TABLE) {
        return Verdict::Rejected(Refusal::KEY_ACTION);
    }
    let function = u16::get(area, at + sct::FUNCTION_AT);
    if action == sct::ACTION_LONG {
        return long_key(function, u64::get(area, at + sct::LBA_AT), visible);
    }
    if action == sct::ACTION_FILL {
        return fill_key(
            function,
            u64::get(area, at + sct::START_AT),
            u64::get(area, at + sct::COUNT_AT),
            visible,
        );
    }
    let name = u16::get(area, at + sct::SELECTION_AT);
    let value = u16::get(area, at + sct::VALUE_AT);
    if action == sct::ACTION_TIMER {
        return timer_key(function, name, value);
    }
    if action == sct::ACTION_FEATURE {
        return feature_key(function, name, value, u16::get(area, at + sct::OPTION_AT));
    }
    table_key(function, name)
}

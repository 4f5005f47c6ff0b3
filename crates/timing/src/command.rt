// A command of a bus trace: its record of 7 bytes, and what kind of command it is to the timer.
ghost use Rattle.std.specs.Prelude.{◌≡◌, ◌+◌, ◌≤◌, length};
ghost use Rattle.timing.specs.Command.{record_size, command_at, setting_of, kind_of};

use wire::Number;

// Command codes: READ DMA, READ DMA EXT, WRITE DMA, WRITE DMA EXT; FLUSH CACHE, FLUSH CACHE EXT; SET FEATURES.
const READ_DMA: u8 = 0xC8;

const READ_DMA_EXT: u8 = 0x25;

const WRITE_DMA: u8 = 0xCA;

const WRITE_DMA_EXT: u8 = 0x35;

const FLUSH_CACHE: u8 = 0xE7;

const FLUSH_CACHE_EXT: u8 = 0xEA;

const SET_FEATURES: u8 = 0xEF;

// Features of SET FEATURES: the time limit, and what an expired timer does to a read or write.
const TIME_LIMIT: u8 = 0x20;

const ERROR_HANDLING: u8 = 0x21;

// The bytes of a record, and the places in it.
pub const RECORD: usize = 7;

const FEATURE_AT: usize = 1;

const COUNT_AT: usize = 2;

const DURATION_AT: usize = 3;

// "command, feature, count (a byte each) and duration in ms"
#[derive(Clone, Copy)]
pub struct Command {
    pub code: u8,
    pub feature: u8,
    pub count: u8,
    pub duration: u32,
}

// What a command is to the timer: the two settings, a timed read or write, a flush, and any other.
#[derive(Clone, Copy)]
pub enum Kind {
    SetLimit,
    SetMode,
    Access,
    Flush,
    Other,
}

impl Command {
    #[tactic(auto, unfolding(crate::specs::Command::kind_of))]
    pub fn kind(self) -> Kind
        ensures { result ≡ kind_of self }
    {
        match self.code {
            READ_DMA | READ_DMA_EXT | WRITE_DMA | WRITE_DMA_EXT => Kind::Access,
            FLUSH_CACHE | FLUSH_CACHE_EXT => Kind::Flush,
            SET_FEATURES => setting_of(self.feature),
            _ => Kind::Other,
        }
    }
}

// The setting that a feature of SET FEATURES is.
fn setting_of(feature: u8) -> Kind
    ensures { result ≡ setting_of feature }
{
    match feature {
        TIME_LIMIT => Kind::SetLimit,
        ERROR_HANDLING => Kind::SetMode,
        _ => Kind::Other,
    }
}

// The command in the seven bytes from `at`.
#[tactic(auto, unfolding(crate::specs::Command::command_at))]
pub fn command_at(input: &[u8], at: usize) -> Command
    requires { at + record_size ≤ length input.now }
    ensures { result ≡ command_at input.now at }
{
    Command {
        code: input[at],
        feature: input[at + FEATURE_AT],
        count: input[at + COUNT_AT],
        duration: u32::get(input, at + DURATION_AT),
    }
}

// The command in the seven bytes of a record.
impl From<&[u8; RECORD]> for Command {
    ghost from_gives = { λ bytes c. c ≡ command_at bytes.now 0 };

    fn from(bytes: &[u8; RECORD]) -> Command {
        command_at(bytes, 0)
    }
}

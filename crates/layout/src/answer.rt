// Why a call is refused, and the number that answers it: the names are those of crates/model/specs/Sizes and of the header.
ghost use Rattle.std.specs.Prelude.{◌≡◌};
ghost use Rattle.layout.specs.Answer.{answer_of};

// "No. Meaning". W-204: "going back from timers other than 70 and 70 is answer 9"
#[derive(Clone, Copy, PartialEq, Eq)]
pub enum Refusal {
    BadPort = 1,
    BadLength = 2,
    BadStage = 3,
    BadRecord = 4,
    BadValue = 5,
    BadImage = 6,
    OtherDisk = 7,
    ImageFull = 8,
    OtherTimers = 9,
}

// The number of the answer: 0 for a call that was done.
pub fn answer_of(outcome: Result<(), Refusal>) -> u32
    ensures { result ≡ answer_of outcome }
{
    match outcome {
        Ok(()) => 0,
        Err(refusal) => refusal as u32,
    }
}

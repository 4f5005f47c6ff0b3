// The result of a step that reports a number, work or repair, as the one number that C gets.
ghost use Rattle.std.specs.Prelude.{◌≡◌, ◌+◌, ◌*◌};
ghost use Rattle.sct_disk.specs.Result.{result_of, reported};
ghost use Rattle.layout.specs.Answer.{answer_of};

use layout::answer::Refusal;

// The weight of the answer in the result.
const ANSWER: u64 = 4294967296;

// The answer in bits 32 to 63, what is reported in bits 0 to 31.
pub fn result_of(outcome: Result<u32, Refusal>) -> u64
    ensures { result ≡ result_of (answer_of outcome) (reported outcome) }
{
    match outcome {
        Ok(number) => number as u64,
        Err(refusal) => ANSWER * refusal as u64,
    }
}

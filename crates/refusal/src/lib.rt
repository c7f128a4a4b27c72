// Why a call was refused (01, "Refusal numbers"): an error of its own in place of a number. Its number is what the answer of a call shows.
#![tactic(auto)]

ghost use Rattle.std.specs.Prelude.{◌≡◌, Result};
ghost use Rattle.rules.specs.Outcomes.{unusable};
ghost use Rattle.refusal.specs.Number.{number_of, answer_of};

// The causes in the order of their numbers, 1 to 11.
#[derive(Clone, Copy, Debug, PartialEq, Eq)]
pub enum Refusal {
    // the frame, or an invoked operation list, breaks a rule of "Sizes" or "Frames"
    BreaksRule = 1,
    // the kind isn't for this receiver, or its shard or client isn't
    NotForMe,
    // number below the client's floor
    BelowFloor,
    // number above high + 1, log number above the log's length, sn above ssn + 1
    TooEarly,
    // the log has 256 entries
    LogFull,
    // log number not in the log
    NotInLog,
    // executed before, heard from before, answered before
    TooLate,
    // "Doesn't fit"
    DoesNotFit,
    // next number minus the smallest outstanding one is 8 or more
    WindowFull,
    // next number would be 65,535
    NumbersUsedUp,
    // the start was refused, or the out area is under 68 bytes
    NotUsable,
}

// The number of a refusal. Answer 0 is no refusal: the step was taken.
impl From<Refusal> for u8 {
    ghost from_gives = { λ refusal number. number ≡ number_of refusal };

    fn from(refusal: Refusal) -> u8 {
        refusal as u8
    }
}

// The answer that a call shows: 0 where it was taken, else the refusal's number.
pub fn answer<T: Copy>(outcome: Result<T, Refusal>) -> u8
    ensures { result ≡ answer_of outcome }
{
    outcome.err().map_or(0, u8::from)
}

// "An out area must have at least 68 bytes."
pub const LEAST_OUT: usize = 68;

// 11, of every call but a start: the start was refused, or the out area is under 68 bytes.
pub fn unusable(started: bool, room: usize) -> bool
    ensures { result ≡ unusable started room }
{
    !started || room < LEAST_OUT
}

// The table of stops and refusals of 01 and 02, with the map to its numbers, and the answers that are made of its rows.
#![tactic(auto)]

ghost use Rattle.std.specs.Prelude.{◌≡◌};
ghost use Rattle.answers.specs.StopsAndRefusals.{stop_number, refusal_number};
ghost use Rattle.answers.specs.AnswerNumbers.{refused, refused_number, answer_number, answer_value, load_number};

// Why a load stopped: 01's stops 1 to 10 in their order.
#[derive(Clone, Copy)]
pub enum Stop {
    BadHeader,
    BadRegister,
    ReadOperation,
    WrongIdcode,
    WrongFrameLength,
    NotReady,
    WrongCount,
    CrcMismatch,
    NoCurrentFrame,
    UnknownCommand,
}

// Why a call is refused: the refusals of 01 and 02 in the order of their numbers, and the C interface's 24.
// Missing: bytes are missing, or a number is cut short. Trailing: bytes follow the last step.
#[derive(Clone, Copy)]
pub enum Refusal {
    UnknownDevice,
    Inconsistent,
    WrongMemory,
    NotHunting,
    WrongEdition,
    WrongDevice,
    OutsidePart,
    OutsideRange,
    ShortOutput,
    WrongRange,
    BadForm,
    Missing,
    UnknownKind,
    ZeroCount,
    NotRising,
    TooManySteps,
    Trailing,
}

// A refusal with what it tells: an offset, the length needed, or 0.
#[derive(Clone, Copy)]
pub struct Refused {
    pub refusal: Refusal,
    pub told: u64,
}

// A refusal that tells 0.
impl From<Refusal> for Refused {
    ghost from_gives = { λ r e. e ≡ refused r 0 };

    fn from(refusal: Refusal) -> Refused {
        Refused { refusal, told: 0 }
    }
}

// Why power-on or a load did not end well. The bytes taken stand beside the answer.
#[derive(Clone, Copy)]
pub enum LoadError {
    Stopped(Stop),
    Refused(Refusal),
}

// 01's number of a stop.
pub fn stop_number(stop: Stop) -> u32
    ensures { result ≡ stop_number stop }
{
    match stop {
        Stop::BadHeader => 1,
        Stop::BadRegister => 2,
        Stop::ReadOperation => 3,
        Stop::WrongIdcode => 4,
        Stop::WrongFrameLength => 5,
        Stop::NotReady => 6,
        Stop::WrongCount => 7,
        Stop::CrcMismatch => 8,
        Stop::NoCurrentFrame => 9,
        Stop::UnknownCommand => 10,
    }
}

// The number of a refusal.
pub fn refusal_number(refusal: Refusal) -> u32
    ensures { result ≡ refusal_number refusal }
{
    match refusal {
        Refusal::UnknownDevice => 21,
        Refusal::Inconsistent => 22,
        Refusal::WrongMemory => 23,
        Refusal::NotHunting => 24,
        Refusal::WrongEdition => 32,
        Refusal::WrongDevice => 33,
        Refusal::OutsidePart => 34,
        Refusal::OutsideRange => 35,
        Refusal::ShortOutput => 36,
        Refusal::WrongRange => 37,
        Refusal::BadForm => 41,
        Refusal::Missing => 42,
        Refusal::UnknownKind => 43,
        Refusal::ZeroCount => 44,
        Refusal::NotRising => 45,
        Refusal::TooManySteps => 46,
        Refusal::Trailing => 47,
    }
}

// The number of a refusal, 0 where nothing is refused.
pub fn refused_number<T: Drop>(answer: Result<T, Refusal>) -> u32
    ensures { result ≡ refused_number answer }
{
    answer.err().map_or(0, refusal_number)
}

// The number of an answer, 0 where it is done.
pub fn answer_number<T: Drop>(answer: Result<T, Refused>) -> u32
    ensures { result ≡ answer_number answer }
{
    match answer {
        Ok(_) => 0,
        Err(refused) => refusal_number(refused.refusal),
    }
}

// What an answer tells beside its number.
pub fn answer_value(answer: Result<u64, Refused>) -> u64
    ensures { result ≡ answer_value answer }
{
    match answer {
        Ok(value) => value,
        Err(refused) => refused.told,
    }
}

// The number of what power-on or a load answers, 0 where it is done.
pub fn load_number(answer: Result<(), LoadError>) -> u32
    ensures { result ≡ load_number answer }
{
    match answer {
        Ok(()) => 0,
        Err(LoadError::Stopped(stop)) => stop_number(stop),
        Err(LoadError::Refused(refusal)) => refusal_number(refusal),
    }
}

// Why there is no stream, in a line for standard error.
use crate::STREAM;
use crate::argument::ArgumentError;
use crate::input::InputError;
use answers::{Refusal, Refused, refusal_number};
use std::fmt;

// Output: the stream could not be written.
#[derive(Clone, Copy)]
pub enum BuildError {
    Argument(ArgumentError),
    Input(InputError),
    Refused(Refused),
    Output,
}

impl From<ArgumentError> for BuildError {
    fn from(error: ArgumentError) -> BuildError {
        BuildError::Argument(error)
    }
}

impl From<InputError> for BuildError {
    fn from(error: InputError) -> BuildError {
        BuildError::Input(error)
    }
}

impl From<Refused> for BuildError {
    fn from(refused: Refused) -> BuildError {
        BuildError::Refused(refused)
    }
}

impl fmt::Display for BuildError {
    fn fmt<W: fmt::Write>(&self, f: &mut fmt::Formatter<W>) -> fmt::Result {
        match self {
            BuildError::Argument(error) => write!(f, "{error}"),
            BuildError::Input(error) => write!(f, "{error}"),
            BuildError::Refused(refused) => write_refused(f, *refused),
            BuildError::Output => f.write_str("the stream could not be written"),
        }
    }
}

// A refusal's number, its offset in the layout or the length that the stream needs, and what it means.
fn write_refused<W: fmt::Write>(f: &mut fmt::Formatter<W>, refused: Refused) -> fmt::Result {
    let number = refusal_number(refused.refusal);
    let told = refused.told;
    match refused.refusal {
        Refusal::ShortOutput => write!(
            f,
            "{number}, length needed {told}: a stream longer than the output of {STREAM} bytes"
        ),
        refusal => write!(f, "{number} at offset {told}: {}", meaning(refusal)),
    }
}

fn meaning(refusal: Refusal) -> &'static str {
    match refusal {
        Refusal::UnknownDevice => "a device number above 7",
        Refusal::Inconsistent => "an inconsistent record",
        Refusal::WrongMemory => "a memory of the wrong length",
        Refusal::NotHunting => "a part that does not wait for sync",
        Refusal::WrongEdition => "an edition other than 1",
        Refusal::WrongDevice => "a layout for another device",
        Refusal::OutsidePart => "a frame outside the part",
        Refusal::OutsideRange => "a frame outside the range",
        Refusal::ShortOutput => "a stream longer than the output",
        Refusal::WrongRange => "a range past the part's last frame",
        Refusal::BadForm => "a number in a bad form",
        Refusal::Missing => "bytes missing",
        Refusal::UnknownKind => "a step of unknown kind",
        Refusal::ZeroCount => "a count of 0",
        Refusal::NotRising => "frame numbers that do not rise",
        Refusal::TooManySteps => "too many steps",
        Refusal::Trailing => "bytes after the last step",
    }
}

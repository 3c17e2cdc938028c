// The program's arguments: a device and a range, as decimal numbers.
ghost use Rattle.std.specs.Prelude.{◌≡◌};
ghost use Rattle.build.specs.Inner.Decimal.{parsed};

use layout::FrameRange;
use std::env::{Env, FillError};
use std::fmt;

// What the arguments ask.
#[derive(Clone, Copy)]
pub struct Request {
    pub device: u32,
    pub range: FrameRange,
}

// Why the arguments ask nothing. Malformed: with the place of the first argument that is no number.
#[derive(Clone, Copy)]
pub enum ArgumentError {
    WrongCount,
    Malformed(usize),
}

impl fmt::Display for ArgumentError {
    fn fmt<W: fmt::Write>(&self, f: &mut fmt::Formatter<W>) -> fmt::Result {
        match self {
            ArgumentError::WrongCount => {
                f.write_str("three arguments are wanted, DEVICE FIRST COUNT")
            }
            ArgumentError::Malformed(i) => write!(
                f,
                "argument {i} of DEVICE FIRST COUNT is not a number under 4294967296 in one to ten decimal digits"
            ),
        }
    }
}

// The number that a text spells.
#[tactic(auto, using(crate::specs::Inner::Decimal::unfit_byte, crate::specs::Inner::Decimal::parsed_ends))]
fn parse(text: &[u8]) -> Option<u32>
    ensures { result ≡ parsed text.now }
{
    if text.is_empty() {
        return None;
    }
    let mut value: u64 = 0;
    for &x in text {
        if !x.is_ascii_digit() {
            return None;
        }
        value = 10 * value + (x - b'0') as u64;
        if 4294967295 < value {
            return None;
        }
    }
    Some(value as u32)
}

// The number of argument i. Ten digits hold every number; what is longer is read as empty.
fn number(rt: &impl Env, i: usize) -> Result<u32, ArgumentError> {
    let mut text = [0u8; 10];
    let n = rt.arg(i, &mut text).unwrap_or(0);
    parse(&text[..n]).ok_or(ArgumentError::Malformed(i))
}

// Whether there is an argument i. No buffer is needed to tell.
fn is_given(rt: &impl Env, i: usize) -> bool {
    !matches!(rt.arg(i, &mut []), Err(FillError::NotPresent))
}

// What the arguments ask. The first is the program's own name.
pub(crate) fn read_arguments(rt: &impl Env) -> Result<Request, ArgumentError> {
    if !is_given(rt, 3) || is_given(rt, 4) {
        return Err(ArgumentError::WrongCount);
    }
    let device = number(rt, 1)?;
    let first = number(rt, 2)?;
    let count = number(rt, 3)?;
    Ok(Request {
        device,
        range: FrameRange { first, count },
    })
}

// Standard input into a buffer.
ghost use Rattle.std.specs.Prelude.{◌≤◌, IfOk, length};

use crate::LAYOUT;
use std::fmt;
use std::io::Read;

// Why the input was not read to its end. Full: the buffer is full.
#[derive(Clone, Copy)]
pub enum InputError {
    Full,
    Failed,
}

impl fmt::Display for InputError {
    fn fmt<W: fmt::Write>(&self, f: &mut fmt::Formatter<W>) -> fmt::Result {
        match self {
            InputError::Full => write!(f, "standard input is longer than {LAYOUT} bytes"),
            InputError::Failed => f.write_str("standard input could not be read"),
        }
    }
}

// Reads up to the end of the input, and tells how many bytes it has.
pub(crate) fn read_input(input: &mut impl Read, buffer: &mut [u8]) -> Result<usize, InputError>
    ensures { IfOk result (λ n. n ≤ length buffer.new) }
{
    let mut n: usize = 0;
    // a `while`: a read takes as many bytes as it gets
    while n < buffer.len() {
        let Ok(more) = input.read(&mut buffer[n..]) else {
            return Err(InputError::Failed);
        };
        if more == 0 {
            return Ok(n);
        }
        n += more;
    }
    Err(InputError::Full)
}

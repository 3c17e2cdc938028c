// What a layout is read for, and the numbers of the layout.
ghost use Rattle.std.specs.Prelude.{◌≡◌};
ghost use Rattle.numbers.specs.Number.{number_at};
ghost use Rattle.layout.specs.Inner.DeskReading.{ToldAt};
ghost use Rattle.answers.specs.AnswerNumbers.{refused};

use crate::FrameRange;
use answers::{Refusal, Refused};
use numbers::{Number, read_number};

// The device and the frames that the desk names, with the layout that is read for them.
#[derive(Clone, Copy)]
pub(crate) struct Desk<'a> {
    pub device: u32,
    pub range: FrameRange,
    pub layout: &'a [u8],
}

impl<'a> Desk<'a> {
    // The number at an offset; a refusal is told there.
    pub(crate) fn number(self, at: usize) -> Result<Number, Refused>
        ensures { ToldAt at (number_at self.entry.layout.now at) result }
    {
        read_number(self.layout, at).map_err(|refusal| refused(refusal, at))
    }
}

// A refusal, told at an offset.
pub(crate) fn refused(refusal: Refusal, at: usize) -> Refused
    ensures { result ≡ refused refusal at }
{
    Refused {
        refusal,
        told: at as u64,
    }
}

// The layout reader: a lent layout, and the offset reached in it.
ghost use Rattle.std.specs.Prelude.{◌≡◌};
ghost use Rattle.layout.specs.LayoutReader.{opened, step, check};
ghost use Rattle.layout.specs.Inner.DeskReading.{lender};

use crate::FrameRange;
use crate::desk::Desk;
use crate::step::PlacedStep;
use answers::Refused;

#[derive(Clone, Copy)]
pub struct LayoutReader<'a> {
    pub layout: &'a [u8],
    pub at: usize,
}

impl<'a> LayoutReader<'a> {
    // A reader of the layout, at an offset.
    pub fn new(layout: &'a [u8], at: usize) -> LayoutReader<'a>
        ensures { result ≡ opened layout.entry at }
    {
        LayoutReader { layout, at }
    }

    // The desk that lends the layout.
    fn desk(self, device: u32, range: FrameRange) -> Desk<'a>
        ensures { result ≡ lender device range self.entry.layout }
    {
        Desk {
            device,
            range,
            layout: self.layout,
        }
    }

    // The step at the offset.
    pub fn step(self, device: u32, range: FrameRange) -> Result<PlacedStep, Refused>
        ensures { result ≡ step device range self.entry }
    {
        self.desk(device, range).step(self.at)
    }

    // Checks the layout that begins at the offset.
    pub fn check(self, device: u32, range: FrameRange) -> Result<u64, Refused>
        ensures { result ≡ check device range self.entry }
    {
        self.desk(device, range).check(self.at)
    }
}

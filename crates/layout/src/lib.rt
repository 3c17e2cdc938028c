// The layout reader: checks a layout for a device and the frames that the desk names.
#![tactic(auto)]

mod desk; // desk.rt: what a layout is read for
mod head; // head.rt: the check of a layout at an offset
mod range; // range.rt: which frames are owned
pub mod reader; // reader.rt: the layout and the offset reached, as one value
pub mod step; // step.rt: one step
mod targets; // targets.rt: the targets of a step

ghost use Rattle.std.specs.Prelude.{◌≡◌};
ghost use Rattle.layout.specs.Layout.{check};

use crate::reader::LayoutReader;
use answers::Refused;

// The frames that the desk names: 01's seat.
#[derive(Clone, Copy)]
pub struct FrameRange {
    pub first: u32,
    pub count: u32,
}

// Checks a layout: 21, 37, then the layout front to back. Ok: the length of its stream in bytes.
pub fn check(device: u32, range: FrameRange, layout: &[u8]) -> Result<u64, Refused>
    ensures { result ≡ check device range layout.now }
{
    LayoutReader::new(layout, 0).check(device, range)
}

// Which frames are owned. Every check of a frame goes through owns.
ghost use Rattle.std.specs.Prelude.{◌≡◌};
ghost use Rattle.layout.specs.Ownership.{owns, owns_run};

use crate::FrameRange;

// The range owns a frame.
#[tactic(auto, unfolding(crate::specs::Ownership::owns))]
pub(crate) fn owns(range: FrameRange, frame: u64) -> bool
    ensures { result ≡ owns range frame }
{
    let first = range.first as u64;
    (first..first + range.count as u64).contains(&frame)
}

// The range owns each frame of a run.
pub(crate) fn owns_run(range: FrameRange, first: u32, count: u32) -> bool
    ensures { result ≡ owns_run (owns range) count first }
{
    let first = first as u64;
    (first..first + count as u64).all(|frame| owns(range, frame))
}

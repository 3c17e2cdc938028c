// The targets of a MultiFrameWrite.
ghost use Rattle.std.specs.Prelude.{◌≡◌};
ghost use Rattle.parts.specs.Table.{count_at};
ghost use Rattle.numbers.specs.Number.{number_at};
ghost use Rattle.layout.specs.Ownership.{owns};
ghost use Rattle.layout.specs.StepReading.{judged_target, targets_at};
ghost use Rattle.layout.specs.Inner.DeskReading.{ToldAt, ended};

use crate::desk::{Desk, refused};
use crate::range::owns;
use answers::{Refusal, Refused};
use numbers::Number;
use parts::table::count_at;

impl<'a> Desk<'a> {
    // The target at an offset, judged for a part of some frames: low is the least that rises.
    #[tactic(auto, unfolding(crate::specs::StepReading::judged_target))]
    fn target(self, frames: u32, low: u64, at: usize) -> Result<Number, Refused>
        ensures { ToldAt at (judged_target frames (owns self.entry.range) low (number_at self.entry.layout.now at)) result }
    {
        let target = self.number(at)?;
        if (target.value as u64) < low {
            return Err(refused(Refusal::NotRising, at));
        }
        if frames <= target.value {
            return Err(refused(Refusal::OutsidePart, at));
        }
        if !owns(self.range, target.value as u64) {
            return Err(refused(Refusal::OutsideRange, at));
        }
        Ok(target)
    }

    // The offset after the targets that stand at an offset. Never inlined: beside the other values of `step` the loop's own do not all
    // keep in registers, and a target took half as long again.
    #[tactic(auto, using(crate::specs::Inner::CheckLoops::target_refused, crate::specs::Inner::CheckLoops::target_next, crate::specs::Inner::CheckLoops::targets_done))]
    #[inline(never)]
    pub(crate) fn past_targets(self, count: u32, start: usize) -> Result<usize, Refused>
        ensures { result ≡ ended (targets_at (count_at self.entry.device) (owns self.entry.range) self.entry.layout.now count 0 start) }
    {
        let frames = count_at(self.device);
        let mut at = start;
        let mut low: u64 = 0;
        for _ in 0..count {
            let Number { value, next } = self.target(frames, low, at)?;
            low = value as u64 + 1;
            at = next;
        }
        Ok(at)
    }
}

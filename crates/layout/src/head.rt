// The check of a layout: the desk's own numbers, then edition, device, step count and the list of steps.
ghost use Rattle.std.specs.Prelude.{◌≡◌, ◌≤◌};
ghost use Rattle.parts.specs.Table.{length_at};
ghost use Rattle.layout.specs.StepReading.{steps_at};
ghost use Rattle.layout.specs.Inner.DeskReading.{of_desk};
ghost use Rattle.layout.specs.Layout.{most_steps, end_read, layout_at, check_answer, check_at};

use crate::desk::{Desk, refused};
use crate::step::PlacedStep;
use answers::{Refusal, Refused};
use parts::table::{count_at, length_at, part_of};

// The most steps that a layout may have.
const MOST_STEPS: u32 = 4096;

impl<'a> Desk<'a> {
    // The list of steps, and the end.
    #[tactic(auto, using(crate::specs::Inner::CheckLoops::answer_summed, crate::specs::Inner::CheckLoops::step_refused, crate::specs::Inner::CheckLoops::step_write, crate::specs::Inner::CheckLoops::step_multi, crate::specs::Inner::CheckLoops::steps_trailing, crate::specs::Inner::CheckLoops::steps_accepted, crate::specs::Inner::StepSizes::write_words, crate::specs::Inner::StepSizes::multi_words))]
    fn steps(self, count: u32, start: usize) -> Result<u64, Refused>
        requires { count ≤ most_steps }
        ensures { result ≡ check_answer (length_at self.entry.device) (end_read self.entry.layout.now (of_desk steps_at self.entry count start)) }
    {
        let length = length_at(self.device) as u64;
        let mut at = start;
        let mut words: u64 = 12;
        for _ in 0..count {
            match self.step(at)? {
                PlacedStep::FrameWrite { count, next, .. } => {
                    words += 7 + (count as u64 + 1) * length;
                    at = next;
                }
                PlacedStep::MultiFrameWrite { count, next, .. } => {
                    words += 7 + length + 5 * count as u64;
                    at = next;
                }
            }
        }
        if at < self.layout.len() {
            return Err(refused(Refusal::Trailing, at));
        }
        Ok(4 * words)
    }

    // The layout from its edition on, which stands at an offset.
    #[tactic(auto, unfolding(crate::specs::Layout::edition_read, crate::specs::Layout::device_read, crate::specs::Layout::count_read, crate::specs::Layout::check_answer))]
    fn layout(self, at: usize) -> Result<u64, Refused>
        ensures { result ≡ check_answer (length_at self.entry.device) (of_desk layout_at self.entry self.entry.device at) }
    {
        let edition = self.number(at)?;
        if edition.value != 1 {
            return Err(refused(Refusal::WrongEdition, at));
        }
        let device = self.number(edition.next)?;
        if device.value != self.device {
            return Err(refused(Refusal::WrongDevice, edition.next));
        }
        let steps = self.number(device.next)?;
        if MOST_STEPS < steps.value {
            return Err(refused(Refusal::TooManySteps, device.next));
        }
        self.steps(steps.value, steps.next)
    }

    // The layout that begins at an offset: 21, 37, then the layout front to back.
    #[tactic(auto, unfolding(crate::specs::Layout::check_for))]
    pub(crate) fn check(self, at: usize) -> Result<u64, Refused>
        ensures { result ≡ check_at self.entry.device self.entry.range self.entry.layout.now at }
    {
        if let Err(refusal) = part_of(self.device) {
            return Err(refused(refusal, 0));
        }
        if (count_at(self.device) as u64) < self.range.first as u64 + self.range.count as u64 {
            return Err(refused(Refusal::WrongRange, 0));
        }
        self.layout(at)
    }
}

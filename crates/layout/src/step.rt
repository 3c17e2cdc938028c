// One step of a layout.
ghost use Rattle.std.specs.Prelude.{◌≡◌, ◌≤◌, length};
ghost use Rattle.parts.specs.Table.{count_at, length_at};
ghost use Rattle.numbers.specs.Number.{number_at};
ghost use Rattle.layout.specs.Inner.DeskReading.{of_desk, past_frames};
ghost use Rattle.layout.specs.Layout.{step_list};
ghost use Rattle.layout.specs.StepReading.{write_first, multi_count, step_at, desk_step, step_refusal, step_offset};

use crate::FrameRange;
use crate::desk::{Desk, refused};
use crate::range::owns_run;
use crate::reader::LayoutReader;
use answers::{Refusal, Refused, answer_number};
use numbers::{Number, read_number};
use parts::table::{count_at, length_at};

// A step that was read: where its frames and its targets lie, and the offset after it.
#[derive(Clone, Copy)]
pub enum PlacedStep {
    FrameWrite {
        first: u32,
        count: u32,
        body: usize,
        next: usize,
    },
    MultiFrameWrite {
        count: u32,
        body: usize,
        targets: usize,
        next: usize,
    },
}

// The steps of a layout: how many, and the offset of the first.
#[derive(Clone, Copy)]
pub struct StepList {
    pub count: u32,
    pub start: usize,
}

impl<'a> Desk<'a> {
    // The offset after frames that stand at an offset.
    #[tactic(auto, unfolding(crate::specs::Inner::DeskReading::past_frames), using(crate::specs::Inner::StepSizes::frames_small))]
    fn past_frames(self, count: u32, body: usize) -> Result<usize, Refused>
        requires { (count ≤ count_at self.device) × (body ≤ length self.layout.now) }
        ensures { result ≡ past_frames (length_at self.entry.device) self.entry.layout.now count body }
    {
        let size = 4 * length_at(self.device) as usize * count as usize;
        if self.layout.len() - body < size {
            return Err(refused(Refusal::Missing, self.layout.len()));
        }
        Ok(body + size)
    }

    // The FrameWrite whose first frame's number stands at an offset, judged when its count is read.
    #[tactic(auto, unfolding(crate::specs::StepReading::write_first, crate::specs::StepReading::write_count, crate::specs::StepReading::judged_write, crate::specs::Inner::DeskReading::past_frames), using(crate::specs::Inner::DeskReading::number_within))]
    fn frame_write(self, at: usize) -> Result<PlacedStep, Refused>
        ensures { result ≡ of_desk write_first self.entry at (number_at self.entry.layout.now at) }
    {
        let Number {
            value: first,
            next: count_offset,
        } = self.number(at)?;
        let Number {
            value: count,
            next: body,
        } = self.number(count_offset)?;
        if count == 0 {
            return Err(refused(Refusal::ZeroCount, count_offset));
        }
        if (count_at(self.device) as u64) < first as u64 + count as u64 {
            return Err(refused(Refusal::OutsidePart, at));
        }
        if !owns_run(self.range, first, count) {
            return Err(refused(Refusal::OutsideRange, at));
        }
        let next = self.past_frames(count, body)?;
        Ok(PlacedStep::FrameWrite {
            first,
            count,
            body,
            next,
        })
    }

    // The MultiFrameWrite whose count stands at an offset, judged when its count is read.
    #[tactic(auto, unfolding(crate::specs::StepReading::multi_count, crate::specs::StepReading::judged_multi, crate::specs::StepReading::targets_read, crate::specs::Inner::DeskReading::ended, crate::specs::Inner::DeskReading::past_frames), using(crate::specs::Inner::DeskReading::number_within))]
    fn multi_frame_write(self, at: usize) -> Result<PlacedStep, Refused>
        ensures { result ≡ of_desk multi_count self.entry at (number_at self.entry.layout.now at) }
    {
        let Number {
            value: count,
            next: body,
        } = self.number(at)?;
        if count == 0 {
            return Err(refused(Refusal::ZeroCount, at));
        }
        if count_at(self.device) < count {
            return Err(refused(Refusal::OutsidePart, at));
        }
        let targets = self.past_frames(1, body)?;
        let next = self.past_targets(count, targets)?;
        Ok(PlacedStep::MultiFrameWrite {
            count,
            body,
            targets,
            next,
        })
    }

    // The step at an offset.
    #[tactic(auto, unfolding(crate::specs::StepReading::step_kind))]
    pub(crate) fn step(self, at: usize) -> Result<PlacedStep, Refused>
        ensures { result ≡ of_desk step_at self.entry at }
    {
        let kind = self.number(at)?;
        match kind.value {
            1 => self.frame_write(kind.next),
            2 => self.multi_frame_write(kind.next),
            _ => Err(refused(Refusal::UnknownKind, at)),
        }
    }
}

// The step at an offset, read by a reader of the layout. A device number that names no part is not
// refused with 21: the step is refused, and one that has its form with 34 (specs/Laws/NoPart.antt).
pub fn read_step(
    device: u32,
    range: FrameRange,
    layout: &[u8],
    at: usize,
) -> Result<PlacedStep, Refused>
    ensures { result ≡ desk_step device range layout.now at }
{
    LayoutReader::new(layout, at).step(device, range)
}

// The steps of an accepted layout, whose edition and device have one byte each; none where no number stands after them.
#[tactic(auto, unfolding(crate::specs::Layout::step_list_of))]
pub fn step_list(layout: &[u8]) -> StepList
    ensures { result ≡ step_list layout.now }
{
    match read_number(layout, 2) {
        Ok(number) => StepList {
            count: number.value,
            start: number.next,
        },
        Err(_) => StepList { count: 0, start: 0 },
    }
}

// The number of a step's refusal, 0 where it was read.
#[tactic(auto, using(crate::specs::Inner::StepAnswers::step_refused_number))]
pub fn step_refusal(step: Result<PlacedStep, Refused>) -> u32
    ensures { result ≡ step_refusal step }
{
    answer_number(step)
}

// The offset that a step tells: the one after it, or the one of what is refused.
#[tactic(auto, unfolding(crate::specs::StepReading::step_offset))]
pub fn step_offset(step: Result<PlacedStep, Refused>) -> usize
    ensures { result ≡ step_offset step }
{
    match step {
        Ok(PlacedStep::FrameWrite { next, .. }) => next,
        Ok(PlacedStep::MultiFrameWrite { next, .. }) => next,
        Err(refused) => refused.told as usize,
    }
}

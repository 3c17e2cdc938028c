// The steps of a layout.
ghost use Rattle.std.specs.Prelude.{◌≡◌, true, ◌≤◌, length, Ok};
ghost use Rattle.parts.specs.Table.{length_at, memory_at};
ghost use Rattle.layout.specs.StepReading.{desk_steps};
ghost use Rattle.layout.specs.Layout.{desk_layout};
ghost use Rattle.layout.specs.ReferenceMachine.{steps_applied, made_of, machine};
ghost use Rattle.layout.specs.Laws.AcceptedLayout.{is_read};
ghost use Rattle.layout.specs.Inner.FirstStep.{step_of, StepBytes};
ghost use Rattle.reference.specs.Inner.StepList.{StepRoom};

use crate::copy::Source;
use layout::step::{PlacedStep, read_step, step_list, step_offset};

impl Source<'_> {
    // Does one step.
    #[tactic(auto, unfolding(layout::specs::Inner::FirstStep::step_of, layout::specs::ReferenceMachine::step_applied, layout::specs::ReferenceMachine::steps_applied))]
    fn step(self, memory: &mut [u8], step: PlacedStep)
        requires { StepBytes (length_at self.device) self.layout.now (Ok step) × StepRoom (length_at self.device) self.layout.now (length memory.old) step }
        ensures { memory.new ≡ steps_applied (length_at self.entry.device) (step_of (length_at self.entry.device) self.entry.layout.now (Ok step)) memory.old }
    {
        match step {
            PlacedStep::FrameWrite {
                first,
                count,
                body,
                ..
            } => self.frames(memory, first, count, body),
            PlacedStep::MultiFrameWrite {
                count,
                body,
                targets,
                ..
            } => self.spread(memory, count, body, targets),
        }
    }

    // Does the steps of a list that was read, from an offset on.
    fn list(self, memory: &mut [u8], count: u32, start: usize)
        requires { (is_read (desk_steps self.device self.range self.layout.now count start) ≡ true) × (length memory.old ≡ memory_at self.device) }
        ensures { memory.new ≡ made_of (length_at self.entry.device) (desk_steps self.entry.device self.entry.range self.entry.layout.now count start) memory.old }
    {
        let mut at = start;
        for _ in 0..count {
            let Ok(step) = read_step(self.device, self.range, self.layout, at) else {
                return;
            };
            self.step(memory, step);
            at = step_offset(Ok(step));
        }
    }

    // Does the steps of the layout.
    pub(crate) fn steps(self, memory: &mut [u8])
        requires { (self.device ≤ 7) × (is_read (desk_layout self.device self.range self.layout.now) ≡ true) × (length memory.old ≡ memory_at self.device) }
        ensures { memory.new ≡ machine self.entry.device self.entry.layout.now memory.old }
    {
        let list = step_list(self.layout);
        self.list(memory, list.count, list.start);
    }
}

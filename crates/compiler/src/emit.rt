// The packets of steps, and the whole stream.
ghost use Rattle.std.specs.Prelude.{◌≡◌, true, [], ◌∷◌, ◌≤◌, ◌<◌, length, Ok};
ghost use Rattle.parts.specs.Table.{length_at, count_at};
ghost use Rattle.layout.specs.StepReading.{desk_steps};
ghost use Rattle.layout.specs.Layout.{desk_layout};
ghost use Rattle.layout.specs.Inner.TargetNumbers.{numbers_at};
ghost use Rattle.layout.specs.Laws.AcceptedLayout.{is_read};
ghost use Rattle.layout.specs.Inner.FirstStep.{StepBytes};
ghost use Rattle.stream.specs.Stream.{to_frame, further, spread_packets, heading};
ghost use Rattle.compiler.specs.Compiled.{stream_for, overwritten};
ghost use Rattle.compiler.specs.Inner.PacketWriting.{Room, Written};
ghost use Rattle.compiler.specs.Inner.StepPackets.{StepCount, packets_at, list_packets, layout_packets};

use crate::packet::Writer;
use layout::FrameRange;
use layout::step::{PlacedStep, read_step, step_list, step_offset};
use numbers::read_number;
use parts::frame::address_at;
use parts::table::{idcode_at, length_at};
use registers::{Register, command};

// The words before the packets.
const DUMMY: u32 = 0xFFFFFFFF;

const SYNC: u32 = 0xAA995566;

impl Writer<'_> {
    // Writes a frame's address to FAR.
    #[inline(always)]
    fn address(&mut self, device: u32, frame: u32)
        requires { Room self.old (to_frame device frame ∷ []) }
        ensures { Written self.old (to_frame device frame ∷ []) self.new }
    {
        self.write(Register::Far, address_at(device, frame));
    }

    // Writes the packets before the steps.
    fn heading(&mut self, device: u32)
        requires { (device ≤ 7) × Room self.old (heading device) }
        ensures { Written self.old (heading device) self.new }
    {
        self.command(command::RCRC);
        self.write(Register::Flr, length_at(device) - 1);
        self.write(Register::Idcode, idcode_at(device));
    }
}

// A layout that was accepted, with the part and the range that it was accepted for.
#[derive(Clone, Copy)]
pub(crate) struct Source<'a> {
    pub(crate) device: u32,
    pub(crate) range: FrameRange,
    pub(crate) layout: &'a [u8],
}

impl Source<'_> {
    // Writes FAR and MFWR for each further target, read from an offset on.
    fn further(self, writer: &mut Writer, more: u32, start: usize)
        requires { Room writer.old (further self.device (numbers_at self.layout.now more start)) }
        ensures { Written writer.old (further self.entry.device (numbers_at self.entry.layout.now more start)) writer.new }
    {
        let mut at = start;
        for _ in 0..more {
            let Ok(target) = read_number(self.layout, at) else {
                return;
            };
            writer.address(self.device, target.value);
            writer.multi();
            at = target.next;
        }
    }

    // Writes FAR and MFWR for each target, with CMD MFWR at the first, read from an offset on.
    fn spread(self, writer: &mut Writer, count: u32, start: usize)
        requires { (0 < count) × Room writer.old (spread_packets self.device (numbers_at self.layout.now count start)) }
        ensures { Written writer.old (spread_packets self.entry.device (numbers_at self.entry.layout.now count start)) writer.new }
    {
        let Ok(target) = read_number(self.layout, start) else {
            return;
        };
        writer.address(self.device, target.value);
        writer.command(command::MFWR);
        writer.multi();
        self.further(writer, count - 1, target.next);
    }

    // Writes one step.
    fn step(self, writer: &mut Writer, step: PlacedStep)
        requires { StepBytes (length_at self.device) self.layout.now (Ok step) × StepCount (count_at self.device) step × Room writer.old (packets_at self.device self.layout.now step) }
        ensures { Written writer.old (packets_at self.entry.device self.entry.layout.now step) writer.new }
    {
        let l = length_at(self.device) as usize;
        writer.command(command::WCFG);
        match step {
            PlacedStep::FrameWrite {
                first,
                count,
                body,
                ..
            } => {
                writer.address(self.device, first);
                let end = body + 4 * l * count as usize;
                writer.frames(&self.layout[body..end], l);
            }
            PlacedStep::MultiFrameWrite {
                count,
                body,
                targets,
                ..
            } => {
                writer.frames(&self.layout[body..body + 4 * l], 0);
                self.spread(writer, count, targets);
            }
        }
    }

    // Writes the steps of a list that was read, from an offset on.
    fn list(self, writer: &mut Writer, count: u32, start: usize)
        requires { (is_read (desk_steps self.device self.range self.layout.now count start) ≡ true) × Room writer.old (list_packets self.device self.range self.layout.now count start) }
        ensures { Written writer.old (list_packets self.entry.device self.entry.range self.entry.layout.now count start) writer.new }
    {
        let mut at = start;
        for _ in 0..count {
            let Ok(step) = read_step(self.device, self.range, self.layout, at) else {
                return;
            };
            self.step(writer, step);
            at = step_offset(Ok(step));
        }
    }

    // Writes the steps of the layout.
    fn steps(self, writer: &mut Writer)
        requires { (self.device ≤ 7) × (is_read (desk_layout self.device self.range self.layout.now) ≡ true) × Room writer.old (layout_packets self.device self.range self.layout.now) }
        ensures { Written writer.old (layout_packets self.entry.device self.entry.range self.entry.layout.now) writer.new }
    {
        let list = step_list(self.layout);
        self.list(writer, list.count, list.start);
    }

    // Writes the stream.
    pub(crate) fn stream(self, output: &mut [u8])
        requires { (self.device ≤ 7) × (is_read (desk_layout self.device self.range self.layout.now) ≡ true) × (length (stream_for self.device self.range self.layout.now) ≤ length output.old) }
        ensures { output.new ≡ overwritten (stream_for self.entry.device self.entry.range self.entry.layout.now) output.old }
    {
        let mut writer = Writer::new(output);
        writer.word(DUMMY);
        writer.word(SYNC);
        writer.heading(self.device);
        self.steps(&mut writer);
        writer.check();
        writer.command(command::DESYNC);
    }
}

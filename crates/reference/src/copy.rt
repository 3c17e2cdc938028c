// Frames of the layout's bytes into the memory.
ghost use Rattle.std.specs.Prelude.{◌≡◌, ◌+◌, ◌*◌, ◌≤◌, length, take, drop};
ghost use Rattle.parts.specs.Table.{length_at};
ghost use Rattle.parts.specs.FrameMemory.{placed};
ghost use Rattle.layout.specs.Step.{frames};
ghost use Rattle.layout.specs.ReferenceMachine.{frames_written, spread};
ghost use Rattle.layout.specs.Inner.TargetNumbers.{numbers_at, Roomy};

use layout::FrameRange;
use numbers::read_number;
use parts::table::length_at;

// A layout that was accepted, with the part and the range that it was accepted for.
#[derive(Clone, Copy)]
pub(crate) struct Source<'a> {
    pub(crate) device: u32,
    pub(crate) range: FrameRange,
    pub(crate) layout: &'a [u8],
}

// Bytes into as many places.
fn copy(places: &mut [u8], bytes: &[u8])
    requires { length places.old ≡ length bytes.now }
    ensures { places.new ≡ bytes.now }
{
    // No `copy_from_slice`: that calls memmove, which the archive for C asks of no board.
    for (k, place) in places.iter_mut().enumerate() {
        *place = bytes[k];
    }
}

impl Source<'_> {
    // The bytes of a frame.
    fn frame_size(self) -> usize
        ensures { result ≡ 4 * length_at self.entry.device }
    {
        4 * length_at(self.device) as usize
    }

    // A frame of the memory becomes these bytes.
    #[tactic(auto, unfolding(parts::specs::FrameMemory::placed,))]
    fn frame(self, memory: &mut [u8], n: usize, frame: &[u8])
        requires { (length frame.now ≡ 4 * length_at self.device) × (4 * length_at self.device * n + 4 * length_at self.device ≤ length memory.old) }
        ensures { memory.new ≡ placed (length_at self.entry.device) n frame.now memory.old }
    {
        let size = frame.len();
        copy(&mut memory[size * n..size * n + size], frame);
    }

    // The frames from a first one on become frames of the layout.
    #[tactic(auto, using(parts::specs::Laws::FramePlacing::frame_end,))]
    pub(crate) fn frames(self, memory: &mut [u8], first: u32, count: u32, body: usize)
        requires { (body + 4 * length_at self.device * count ≤ length self.layout.now) × (4 * length_at self.device * (first + count) ≤ length memory.old) }
        ensures { memory.new ≡ frames_written (length_at self.entry.device) first (frames (length_at self.entry.device) count (drop body self.entry.layout.now)) memory.old }
    {
        let size = self.frame_size();
        for i in 0..count as usize {
            let from = body + size * i;
            self.frame(memory, first as usize + i, &self.layout[from..from + size]);
        }
    }

    // Each target, read from an offset on, becomes one frame of the layout.
    pub(crate) fn spread(self, memory: &mut [u8], count: u32, body: usize, targets: usize)
        requires { (body + 4 * length_at self.device ≤ length self.layout.now) × Roomy (length_at self.device) (length memory.old) (numbers_at self.layout.now count targets) }
        ensures { memory.new ≡ spread (length_at self.entry.device) (take (4 * length_at self.entry.device) (drop body self.entry.layout.now)) (numbers_at self.entry.layout.now count targets) memory.old }
    {
        let frame = &self.layout[body..body + self.frame_size()];
        let mut at = targets;
        for _ in 0..count {
            let Ok(target) = read_number(self.layout, at) else {
                return;
            };
            self.frame(memory, target.value as usize, frame);
            at = target.next;
        }
    }
}

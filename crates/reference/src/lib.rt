// The reference machine as code: does the steps of an accepted layout on a lent memory.
#![tactic(auto)]

mod copy; // copy.rt: frames of the layout's bytes into the memory
mod steps; // steps.rt: the steps of a layout

ghost use Rattle.std.specs.Prelude.{◌≡◌};
ghost use Rattle.reference.specs.Applied.{applied};

use crate::copy::Source;
use answers::{Refusal, Refused};
use layout::FrameRange;
use parts::table::memory_at;

// Applies a layout to a memory: 21, 37, the layout's refusals, then 23. A refusal leaves every byte.
#[tactic(auto, unfolding(crate::specs::Applied::applied, crate::specs::Applied::applied_after))]
pub fn apply(
    device: u32,
    range: FrameRange,
    layout: &[u8],
    memory: &mut [u8],
) -> Result<u64, Refused>
    ensures value { result ≡ (applied device range layout.now memory.old).answer }
    ensures memory_after { memory.new ≡ (applied device range layout.now memory.old).memory }
{
    let length = layout::check(device, range, layout)?;
    if memory.len() != memory_at(device) as usize {
        return Err(Refused {
            refusal: Refusal::WrongMemory,
            told: 0,
        });
    }
    let source = Source {
        device,
        range,
        layout,
    };
    source.steps(memory);
    Ok(length)
}

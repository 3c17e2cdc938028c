// The compiler: a layout into the stream that does its steps.
#![tactic(auto)]

mod packet; // packet.rt: the writer of words and packets
mod frames; // frames.rt: frame data into the output
mod emit; // emit.rt: the packets of steps, and the whole stream

ghost use Rattle.std.specs.Prelude.{◌≡◌};
ghost use Rattle.compiler.specs.Compiled.{compiled};

use crate::emit::Source;
use answers::{Refusal, Refused};
use layout::FrameRange;

// Compiles a layout into an output: 21, 37, the layout's refusals, then 36. A refusal leaves every byte of the output.
#[tactic(auto, unfolding(crate::specs::Compiled::compiled, crate::specs::Compiled::compiled_after,))]
pub fn compile(
    device: u32,
    range: FrameRange,
    layout: &[u8],
    output: &mut [u8],
) -> Result<u64, Refused>
    ensures value { result ≡ (compiled device range layout.now output.old).answer }
    ensures output_after { output.new ≡ (compiled device range layout.now output.old).output }
{
    let length = layout::check(device, range, layout)?;
    if (output.len() as u64) < length {
        return Err(Refused {
            refusal: Refusal::ShortOutput,
            told: length,
        });
    }
    let source = Source {
        device,
        range,
        layout,
    };
    source.stream(output);
    Ok(length)
}

// Compile, then load: what a check of a layout against a desk's part calls.
#![tactic(auto)]

ghost use Rattle.std.specs.Prelude.{◌≡◌, Err};
ghost use Rattle.answers.specs.AnswerNumbers.{refused as refused_so};
ghost use Rattle.reconfigure.specs.Reconfigured.{reconfigured};
ghost use Rattle.reconfigure.specs.Promise.{Promised};

use answers::{Refusal, Refused};
use config::is_hunting;
use layout::FrameRange;
use parts::table::memory_at;
use record::{Record, consistent};

// The record afterwards, and the answer.
#[derive(Clone, Copy)]
pub struct Reconfigured {
    pub record: Record,
    pub answer: Result<u64, Refused>,
}

// Refused with 0 told, the record as it was.
fn refused(record: Record, refusal: Refusal) -> Reconfigured
    ensures record_value { result.«record» ≡ «record» }
    ensures answer_value { result.answer ≡ Err (refused_so refusal 0) }
{
    Reconfigured {
        record,
        answer: Err(Refused { refusal, told: 0 }),
    }
}

// Compiles a layout for the record's own device into an output and loads the stream: 22, 23, 24, then the compiler's refusals. A
// refusal changes nothing.
pub fn reconfigure(
    record: Record,
    memory: &mut [u8],
    range: FrameRange,
    layout: &[u8],
    output: &mut [u8],
) -> Reconfigured
    ensures answer_value { result.answer ≡ (reconfigured «record» memory.old range layout.now output.old).answer }
    ensures record_value { result.«record» ≡ (reconfigured «record» memory.old range layout.now output.old).«record» }
    ensures memory_after { memory.new ≡ (reconfigured «record» memory.old range layout.now output.old).memory }
    ensures output_after { output.new ≡ (reconfigured «record» memory.old range layout.now output.old).output }
    ensures promised { Promised range layout.now «record» memory.old result.answer result.«record» memory.new }
{
    let device = record.control.device;
    if !consistent(record) {
        return refused(record, Refusal::Inconsistent);
    }
    if memory.len() != memory_at(device) as usize {
        return refused(record, Refusal::WrongMemory);
    }
    if !is_hunting(record.phase) {
        return refused(record, Refusal::NotHunting);
    }
    let answer = compiler::compile(device, range, layout, output);
    let Ok(length) = answer else {
        return Reconfigured { record, answer };
    };
    let loaded = loader::load(record, memory, &output[..length as usize]);
    Reconfigured {
        record: loaded.record,
        answer,
    }
}

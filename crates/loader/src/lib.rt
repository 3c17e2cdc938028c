// Load: the control machine's events applied to the frame buffer and to the memory.
#![tactic(auto)]

mod fill; // fill.rt: words of an FDRI packet that only fill the buffer
mod store; // store.rt: the buffer and the memory
mod turn; // turn.rt: the next bytes of a piece

ghost use Rattle.std.specs.Prelude.{◌≡◌};
ghost use Rattle.loader.specs.Run.{run};
ghost use Rattle.loader.specs.Load.{answer_of, refused, load};

use answers::{LoadError, Refusal};
use config::{Phase, is_stopped};
use parts::table::memory_at;
use record::{Record, consistent};

// The record after a load, the answer, and the bytes taken from this piece.
#[derive(Clone, Copy)]
pub struct Loaded {
    pub record: Record,
    pub answer: Result<(), LoadError>,
    pub taken: u64,
}

#[tactic(auto, unfolding(crate::specs::Load::answer_of))]
fn answer_of(phase: Phase) -> Result<(), LoadError>
    ensures { result ≡ answer_of phase }
{
    match phase {
        Phase::Stopped(stop) => Err(LoadError::Stopped(stop)),
        _ => Ok(()),
    }
}

// The bytes of a piece up to its end or a stop; how many were taken.
fn run(device: &mut Record, memory: &mut [u8], bytes: &[u8]) -> usize
    ensures record_value { device.new ≡ (run device.old memory.old bytes.now).«record» }
    ensures memory_after { memory.new ≡ (run device.old memory.old bytes.now).memory }
    ensures taken_value { result ≡ (run device.old memory.old bytes.now).taken }
{
    let mut rest = bytes;
    // a `while`: a turn takes as many bytes as it can
    while !rest.is_empty() && !is_stopped(device.phase) {
        let taken = turn::advance(device, memory, rest);
        rest = &rest[taken..];
    }
    bytes.len() - rest.len()
}

// A refusal hands the same record back.
fn refused(d: Record, refusal: Refusal) -> Loaded
    ensures record_value { result.«record» ≡ d }
    ensures answer_value { result.answer ≡ Err (LoadError.Refused refusal) }
    ensures taken_value { result.taken ≡ 0 }
{
    Loaded {
        record: d,
        answer: Err(LoadError::Refused(refusal)),
        taken: 0,
    }
}

// Load: 22, then 23, then the stop or done, with the bytes taken from this piece.
#[tactic(auto, unfolding(crate::specs::Load::load))]
pub fn load(d: Record, memory: &mut [u8], bytes: &[u8]) -> Loaded
    ensures record_value { result.«record» ≡ (load d memory.old bytes.now).«record» }
    ensures answer_value { result.answer ≡ (load d memory.old bytes.now).answer }
    ensures taken_value { result.taken ≡ (load d memory.old bytes.now).taken }
    ensures memory_after { memory.new ≡ (load d memory.old bytes.now).memory }
{
    if !consistent(d) {
        return refused(d, Refusal::Inconsistent);
    }
    if memory.len() != memory_at(d.control.device) as usize {
        return refused(d, Refusal::WrongMemory);
    }
    let mut record = d;
    let taken = run(&mut record, memory, bytes);
    Loaded {
        record,
        answer: answer_of(record.phase),
        taken: taken as u64,
    }
}

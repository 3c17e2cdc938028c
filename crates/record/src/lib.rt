// The device record: when it is consistent, and power-on.
#![tactic(auto)]

mod checks; // checks.rt: the items of consistency that go by cases
mod power; // power.rt: the record of a part that was just powered, and that of a refusal

ghost use Rattle.std.specs.Prelude.{◌≡◌};
ghost use Rattle.record.specs.Consistency.{consistent};
ghost use Rattle.record.specs.PowerOn.{power_on};

use answers::{LoadError, Refusal};
use config::{Control, Phase};
use parts::table::{memory_at, part_of};
use registers::command;

// A frame of the greatest part; of the device's part the first L words count.
pub type FrameBuffer = [u32; 213];

// The device record.
#[derive(Clone, Copy)]
pub struct Record {
    pub phase: Phase,
    pub control: Control,
    pub frame: FrameBuffer,
}

// The record after power-on.
#[derive(Clone, Copy)]
pub struct PoweredOn {
    pub record: Record,
    pub answer: Result<(), LoadError>,
}

// The record is consistent.
#[tactic(auto, unfolding(crate::specs::Consistency::consistent))]
pub fn consistent(record: Record) -> bool
    ensures { result ≡ consistent «record».phase «record».control }
{
    let control = record.control;
    control.device <= 7
        && checks::current_fits(control.device, control.current)
        && control.registers.crc < 65536
        && control.registers.cmd <= command::LAST
        && checks::phase_fits(record.phase, control)
}

// Power-on: 21, then 23; a refusal gives the fresh record of device 0 and leaves the memory.
#[tactic(auto, unfolding(crate::specs::PowerOn::powered))]
pub fn power_on(device: u32, memory: &mut [u8]) -> PoweredOn
    ensures record_value { result.«record» ≡ (power_on device memory.old).«record» }
    ensures answer_value { result.answer ≡ (power_on device memory.old).answer }
    ensures memory_after { memory.new ≡ (power_on device memory.old).memory }
{
    if let Err(refusal) = part_of(device) {
        return power::refused(refusal);
    }
    if memory.len() != memory_at(device) as usize {
        return power::refused(Refusal::WrongMemory);
    }
    memory.fill(0);
    PoweredOn {
        record: power::fresh(device),
        answer: Ok(()),
    }
}

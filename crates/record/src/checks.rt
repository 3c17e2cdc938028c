// The items of consistency that go by cases.
ghost use Rattle.std.specs.Prelude.{◌≡◌};
ghost use Rattle.record.specs.Consistency.{current_fits, data_fits, phase_fits};

use config::{Control, Phase};
use parts::table::{count_at, length_at};
use registers::Register;

// A count of words has at most 27 bits.
const GREATEST_COUNT: u32 = 134217727;

#[tactic(auto, unfolding(crate::specs::Consistency::current_fits))]
pub(crate) fn current_fits(device: u32, current: Option<u32>) -> bool
    ensures { result ≡ current_fits device current }
{
    current.is_none_or(|frame| frame < count_at(device))
}

#[tactic(auto, unfolding(crate::specs::Consistency::data_fits, registers::specs::RegisterAddresses::address_of))]
fn data_fits(register: Register, left: u32, filled: u32, control: Control) -> bool
    ensures { result ≡ data_fits register left filled control }
{
    match register {
        Register::Fdri => {
            let length = length_at(control.device);
            filled < length && (filled as u64 + left as u64) % length as u64 == 0
        }
        Register::Mfwr => left <= 2 && control.flags.buffer_valid,
        _ => true,
    }
}

#[tactic(auto, unfolding(crate::specs::Consistency::phase_fits))]
pub(crate) fn phase_fits(phase: Phase, control: Control) -> bool
    ensures { result ≡ phase_fits phase control }
{
    match phase {
        Phase::Hunting(_) => !control.flags.start_pending,
        Phase::Data {
            register,
            left,
            filled,
        } => (1..=GREATEST_COUNT).contains(&left) && data_fits(register, left, filled, control),
        Phase::Header(_) | Phase::Crc | Phase::Stopped(_) => true,
    }
}

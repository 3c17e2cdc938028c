// A word written to a register.
ghost use Rattle.std.specs.Prelude.{◌≡◌};
ghost use Rattle.config.specs.RegisterWrites.{masked, hold, written};

use crate::Registers;
use registers::{Register, address_of, is_lout};

// The bits of CTL that MASK lets through.
#[tactic(auto, unfolding(crate::specs::RegisterWrites::masked))]
fn masked(mask: u32, ctl: u32, word: u32) -> u32
    ensures { result ≡ masked mask ctl word }
{
    ctl & !mask | word & mask
}

// The registers with the word in its place.
#[tactic(auto, unfolding(crate::specs::RegisterWrites::hold, registers::specs::RegisterAddresses::address_of))]
fn hold(register: Register, word: u32, registers: Registers) -> Registers
    ensures { result ≡ hold register word registers }
{
    let mut held = registers;
    match register {
        Register::Crc => {}
        Register::Far => held.far = word,
        Register::Fdri => held.fdri = word,
        Register::Cmd => held.cmd = word,
        Register::Ctl => held.ctl = masked(held.mask, held.ctl, word),
        Register::Mask => held.mask = word,
        Register::Lout => held.lout = word,
        Register::Cor => held.cor = word,
        Register::Mfwr => held.mfwr = word,
        Register::Flr => held.flr = word,
        Register::Idcode => held.idcode = word,
    }
    held
}

// A word written: fed to the CRC unless it is for LOUT, then held.
#[tactic(auto, unfolding(crate::specs::RegisterWrites::fed_crc))]
pub(crate) fn write(register: Register, word: u32, registers: Registers) -> Registers
    ensures { result ≡ written register word registers }
{
    if is_lout(register) {
        return hold(register, word, registers);
    }
    let crc = crc16::feed(registers.crc, address_of(register), word);
    hold(register, word, Registers { crc, ..registers })
}

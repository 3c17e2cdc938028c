// The registers of the configuration logic by name and by address, and the commands by name.
#![tactic(auto)]

pub mod command; // command.rt: the codes of the commands

// The registers that can be written (001, Table 1).
#[derive(Clone, Copy)]
pub enum Register {
    Crc,
    Far,
    Fdri,
    Cmd,
    Ctl,
    Mask,
    Lout,
    Cor,
    Mfwr,
    Flr,
    Idcode,
}

ghost use Rattle.std.specs.Prelude.{◌≡◌};
ghost use Rattle.registers.specs.RegisterAddresses.{address_of, is_fdri, is_mfwr, is_lout, register_at};

// The address of a register (001, Table 1).
#[tactic(auto, unfolding(crate::specs::RegisterAddresses::address_of))]
pub fn address_of(register: Register) -> u32
    ensures { result ≡ address_of register }
{
    match register {
        Register::Crc => 0,
        Register::Far => 1,
        Register::Fdri => 2,
        Register::Cmd => 4,
        Register::Ctl => 5,
        Register::Mask => 6,
        Register::Lout => 8,
        Register::Cor => 9,
        Register::Mfwr => 10,
        Register::Flr => 11,
        Register::Idcode => 14,
    }
}

// A test for each of the three registers that the packets tell apart: definitions and edits go by each.
#[tactic(auto, unfolding(crate::specs::RegisterAddresses::address_of))]
pub fn is_fdri(register: Register) -> bool
    ensures { result ≡ is_fdri register }
{
    matches!(register, Register::Fdri)
}

#[tactic(auto, unfolding(crate::specs::RegisterAddresses::address_of))]
pub fn is_mfwr(register: Register) -> bool
    ensures { result ≡ is_mfwr register }
{
    matches!(register, Register::Mfwr)
}

#[tactic(auto, unfolding(crate::specs::RegisterAddresses::address_of))]
pub fn is_lout(register: Register) -> bool
    ensures { result ≡ is_lout register }
{
    matches!(register, Register::Lout)
}

// The register at an address, if there is one and it can be written.
#[tactic(auto, unfolding(crate::specs::RegisterAddresses::register_at))]
pub fn register_at(address: u32) -> Option<Register>
    ensures { result ≡ register_at address }
{
    match address {
        0 => Some(Register::Crc),
        1 => Some(Register::Far),
        2 => Some(Register::Fdri),
        4 => Some(Register::Cmd),
        5 => Some(Register::Ctl),
        6 => Some(Register::Mask),
        8 => Some(Register::Lout),
        9 => Some(Register::Cor),
        10 => Some(Register::Mfwr),
        11 => Some(Register::Flr),
        14 => Some(Register::Idcode),
        _ => None,
    }
}

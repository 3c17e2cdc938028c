// Header words: parsed, then obeyed. The checks go 1, 3, 2, 6, 7.
ghost use Rattle.std.specs.Prelude.{◌≡◌};
ghost use Rattle.config.specs.ControlState.{transition, stopped};
ghost use Rattle.config.specs.PacketHeaders.{operation, type1, type2, packet, ready, counted, begin, obeyed, header_word};
ghost use Rattle.config.specs.declared.Event.TheVariants as Event;

use crate::{Control, Event, PacketHeader, PartialWord, Phase, Transition};
use answers::Stop;
use parts::table::length_at;
use registers::command::{MFWR, WCFG};
use registers::{Register, register_at};

// The machine with this phase and control state, and no event.
pub(crate) fn going(phase: Phase, control: Control) -> Transition
    ensures { result ≡ transition phase control Event.Nothing }
{
    Transition {
        phase,
        control,
        event: Event::Nothing,
    }
}

// The bad word is dropped, and the partial word is emptied.
pub(crate) fn stopped(stop: Stop, control: Control) -> Transition
    ensures { result ≡ stopped stop control }
{
    going(
        Phase::Stopped(stop),
        Control {
            partial: PartialWord::Zero,
            ..control
        },
    )
}

// The operations of a header; 3 is not allowed.
const NO_OPERATION: u32 = 0;

const READ: u32 = 1;

const WRITE: u32 = 2;

// Bits 28..27 of a header.
fn operation(word: u32) -> u32
    ensures { result ≡ operation word }
{
    word >> 27 & 3
}

// A type 1 header: the register in bits 26..13, the count in 10..0.
#[tactic(auto, unfolding(crate::specs::PacketHeaders::type1))]
fn type1(word: u32) -> PacketHeader
    ensures { result ≡ type1 word }
{
    let count = word & 0x7FF;
    match operation(word) {
        NO_OPERATION if count == 0 => PacketHeader::Idle,
        READ => PacketHeader::Read,
        WRITE => PacketHeader::Write {
            address: word >> 13 & 0x3FFF,
            count,
        },
        _ => PacketHeader::Bad,
    }
}

// A type 2 header, for the open register: the count in bits 26..0.
#[tactic(auto, unfolding(crate::specs::PacketHeaders::type2))]
fn type2(opened: Option<Register>, word: u32) -> PacketHeader
    ensures { result ≡ type2 opened word }
{
    let Some(register) = opened else {
        return PacketHeader::Bad;
    };
    match operation(word) {
        READ => PacketHeader::Read,
        WRITE => PacketHeader::LongWrite {
            register,
            count: word & 0x7FF_FFFF,
        },
        _ => PacketHeader::Bad,
    }
}

// A header by its type, in bits 31..29; a word of zeros is padding.
#[tactic(auto, unfolding(crate::specs::PacketHeaders::packet))]
fn packet(opened: Option<Register>, word: u32) -> PacketHeader
    ensures { result ≡ packet opened word }
{
    if word == 0 {
        return PacketHeader::Idle;
    }
    match word >> 29 {
        1 => type1(word),
        2 => type2(opened, word),
        _ => PacketHeader::Bad,
    }
}

// Stop 6 does not hold.
#[tactic(auto, unfolding(crate::specs::PacketHeaders::ready, registers::specs::RegisterAddresses::address_of))]
fn ready(register: Register, control: Control) -> bool
    ensures { result ≡ ready register control }
{
    let flags = control.flags;
    let accepted = flags.idcode_ok && flags.flr_ok;
    let command = control.registers.cmd;
    match register {
        Register::Fdri => accepted && command == WCFG,
        Register::Mfwr => accepted && command == MFWR && flags.buffer_valid,
        _ => true,
    }
}

// Stop 7 does not hold.
#[tactic(auto, unfolding(crate::specs::PacketHeaders::counted, registers::specs::RegisterAddresses::address_of))]
fn counted(register: Register, length: u32, count: u32) -> bool
    ensures { result ≡ counted register length count }
{
    match register {
        Register::Fdri => count.is_multiple_of(length),
        Register::Mfwr => count == 2,
        _ => true,
    }
}

#[tactic(auto, unfolding(crate::specs::PacketHeaders::begin))]
fn begin(register: Register, count: u32, control: Control) -> Transition
    ensures { result ≡ begin register count control }
{
    if !ready(register, control) {
        return stopped(Stop::NotReady, control);
    }
    if !counted(register, length_at(control.device), count) {
        return stopped(Stop::WrongCount, control);
    }
    going(
        Phase::Data {
            register,
            left: count,
            filled: 0,
        },
        control,
    )
}

#[tactic(auto, unfolding(crate::specs::PacketHeaders::obeyed, crate::specs::PacketHeaders::type_one_write))]
fn obey(packet: PacketHeader, control: Control) -> Transition
    ensures { result ≡ obeyed packet control }
{
    match packet {
        PacketHeader::Idle | PacketHeader::LongWrite { count: 0, .. } => going(
            Phase::Header(None),
            control,
        ),
        PacketHeader::Bad => stopped(Stop::BadHeader, control),
        PacketHeader::Read => stopped(Stop::ReadOperation, control),
        PacketHeader::Write { address, count } => match register_at(address) {
            None => stopped(Stop::BadRegister, control),
            Some(register) if count == 0 => going(Phase::Header(Some(register)), control),
            Some(register) => begin(register, count, control),
        },
        PacketHeader::LongWrite { register, count } => begin(register, count, control),
    }
}

pub(crate) fn header_word(opened: Option<Register>, control: Control, word: u32) -> Transition
    ensures { result ≡ header_word opened control word }
{
    obey(packet(opened, word), control)
}

// Words 0 to 23 of the image: phase and control state as numbers.
ghost use Rattle.std.specs.Prelude.{◌≡◌};
ghost use Rattle.record_image.specs.Image.{phase_number, open_number, argument as argument_of, words_left, words_filled};
ghost use Rattle.record_image.specs.Image.{pending as pending_of, bytes_count, bytes_number, current_number, flag_bits, head_words};

use answers::stop_number;
use config::{Control, Flags, PartialWord, Phase};
use registers::{Register, address_of};

// Word 1.
fn phase_number(phase: Phase) -> u32
    ensures { result ≡ phase_number phase }
{
    match phase {
        Phase::Hunting(_) => 0,
        Phase::Header(_) => 1,
        Phase::Data { .. } => 2,
        Phase::Crc => 3,
        Phase::Stopped(_) => 4,
    }
}

// Word 2 of a header.
#[tactic(auto, using(registers::specs::Laws::AddressLookup::address_bound))]
fn open_number(opened: Option<Register>) -> u32
    ensures { result ≡ open_number opened }
{
    opened.map_or(0, |register| address_of(register) + 1)
}

// Word 2.
fn argument(phase: Phase) -> u32
    ensures { result ≡ argument_of phase }
{
    match phase {
        Phase::Header(opened) => open_number(opened),
        Phase::Data { register, .. } => address_of(register),
        Phase::Stopped(stop) => stop_number(stop),
        Phase::Hunting(_) | Phase::Crc => 0,
    }
}

// Word 3.
fn words_left(phase: Phase) -> u32
    ensures { result ≡ words_left phase }
{
    match phase {
        Phase::Data { left, .. } => left,
        _ => 0,
    }
}

// Word 4.
#[tactic(auto, unfolding(crate::specs::Image::words_filled, registers::specs::RegisterAddresses::address_of))]
fn words_filled(phase: Phase) -> u32
    ensures { result ≡ words_filled phase }
{
    match phase {
        Phase::Data {
            register: Register::Fdri,
            filled,
            ..
        } => filled,
        _ => 0,
    }
}

// The bytes of words 5 and 6.
fn pending(phase: Phase, partial: PartialWord) -> PartialWord
    ensures { result ≡ pending_of phase partial }
{
    match phase {
        Phase::Hunting(window) => window,
        _ => partial,
    }
}

// Word 5.
fn bytes_count(bytes: PartialWord) -> u32
    ensures { result ≡ bytes_count bytes }
{
    match bytes {
        PartialWord::Zero => 0,
        PartialWord::One(_) => 1,
        PartialWord::Two(_, _) => 2,
        PartialWord::Three(_, _, _) => 3,
    }
}

// Word 6.
fn bytes_number(bytes: PartialWord) -> u32
    ensures { result ≡ bytes_number bytes }
{
    u32::from_be_bytes(match bytes {
        PartialWord::Zero => [0, 0, 0, 0],
        PartialWord::One(a) => [0, 0, 0, a],
        PartialWord::Two(a, b) => [0, 0, a, b],
        PartialWord::Three(a, b, c) => [0, a, b, c],
    })
}

// Word 7.
fn current_number(current: Option<u32>) -> u32
    ensures { result ≡ current_number current }
{
    current.unwrap_or(0xFFFFFFFF)
}

// Word 8.
fn flag_bits(flags: Flags) -> u32
    ensures { result ≡ flag_bits flags }
{
    u32::from(flags.idcode_ok)
        + u32::from(flags.flr_ok) * 2
        + u32::from(flags.buffer_valid) * 4
        + u32::from(flags.ghigh) * 8
        + u32::from(flags.start_pending) * 16
        + u32::from(flags.check_passed) * 32
        + u32::from(flags.started) * 64
}

// Words 0 to 23.
#[tactic(auto, unfolding(crate::specs::Image::head_words))]
pub(crate) fn head(phase: Phase, control: Control) -> [u32; 24]
    ensures { result ≡ head_words phase control }
{
    let bytes = pending(phase, control.partial);
    let r = control.registers;
    [
        control.device,
        phase_number(phase),
        argument(phase),
        words_left(phase),
        words_filled(phase),
        bytes_count(bytes),
        bytes_number(bytes),
        current_number(control.current),
        flag_bits(control.flags),
        r.crc,
        r.far,
        r.fdri,
        0,
        r.cmd,
        r.ctl,
        r.mask,
        0,
        r.lout,
        r.cor,
        r.mfwr,
        r.flr,
        0,
        0,
        r.idcode,
    ]
}

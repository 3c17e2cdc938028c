// A data word to each register.
ghost use Rattle.std.specs.Prelude.{◌≡◌, ◌<◌};
ghost use Rattle.config.specs.CurrentFrame.{named};
ghost use Rattle.config.specs.DataWords.{ended, onward, put, crc_word, far_word, cmd_word, stepped, frame_stored};
ghost use Rattle.config.specs.DataWords.{fdri_word, mfwr_word, idcode_word, flr_word, data_word};

use crate::command::act;
use crate::header::{going, stopped};
use crate::writes::write;
use crate::{Control, Event, Flags, Phase, Registers, Transition};
use answers::Stop;
use parts::frame::frame_number;
use parts::table::{count_at, idcode_at, length_at};
use registers::{Register, command, is_fdri};

// The phase after a packet's last word.
#[tactic(auto, unfolding(crate::specs::DataWords::ended))]
fn ended(register: Register) -> Phase
    ensures { result ≡ ended register }
{
    if is_fdri(register) {
        Phase::Crc
    } else {
        Phase::Header(None)
    }
}

// The phase after one of the words left.
#[tactic(auto, unfolding(crate::specs::DataWords::onward))]
fn onward(register: Register, left: u32, filled: u32) -> Phase
    ensures { result ≡ onward register left filled }
{
    if left <= 1 {
        return ended(register);
    }
    Phase::Data {
        register,
        left: left - 1,
        filled,
    }
}

// The word is written to its register.
fn put(register: Register, word: u32, control: Control) -> Control
    ensures { result ≡ put register word control }
{
    Control {
        registers: write(register, word, control.registers),
        ..control
    }
}

// A word to CRC; the auto CRC word too.
#[tactic(auto, unfolding(crate::specs::DataWords::checked, crate::specs::ControlState::raised, registers::specs::RegisterAddresses::address_of))]
pub(crate) fn crc_word(phase: Phase, control: Control, word: u32) -> Transition
    ensures { result ≡ crc_word phase control word }
{
    let crc = crc16::feed(control.registers.crc, 0, word);
    let registers = Registers {
        crc,
        ..control.registers
    };
    if crc != 0 {
        return stopped(
            Stop::CrcMismatch,
            Control {
                registers,
                ..control
            },
        );
    }
    let flags = Flags {
        check_passed: true,
        ..control.flags
    };
    going(
        phase,
        Control {
            registers,
            flags,
            ..control
        },
    )
}

// The frame that an address names.
#[tactic(auto, unfolding(crate::specs::CurrentFrame::current_from))]
fn named(device: u32, address: u32) -> Option<u32>
    ensures { result ≡ named device address }
{
    frame_number(device, address).unwrap_or(None)
}

#[tactic(auto, unfolding(crate::specs::DataWords::far_word))]
fn far_word(phase: Phase, control: Control, word: u32) -> Transition
    ensures { result ≡ far_word phase control word }
{
    let current = named(control.device, word);
    act(
        control.registers.cmd,
        phase,
        Control {
            current,
            ..put(Register::Far, word, control)
        },
    )
}

#[tactic(auto, unfolding(crate::specs::DataWords::cmd_word))]
fn cmd_word(phase: Phase, control: Control, word: u32) -> Transition
    ensures { result ≡ cmd_word phase control word }
{
    if command::LAST < word {
        return stopped(Stop::UnknownCommand, control);
    }
    act(word, phase, put(Register::Cmd, word, control))
}

// The frame after a frame that was stored.
#[tactic(auto, unfolding(crate::specs::DataWords::stepped))]
fn stepped(device: u32, frame: u32) -> Option<u32>
    ensures { result ≡ stepped device frame }
{
    let count = count_at(device);
    frame.checked_add(1).filter(|&next| next < count)
}

// The word that completes a frame which is not the packet's last.
#[tactic(auto, unfolding(crate::specs::DataWords::frame_stored))]
fn frame_stored(left: u32, filled: u32, control: Control, word: u32) -> Transition
    requires { 1 < left }
    ensures { result ≡ frame_stored control.current left filled control word }
{
    let Some(frame) = control.current else {
        return stopped(Stop::NoCurrentFrame, control);
    };
    Transition {
        phase: Phase::Data {
            register: Register::Fdri,
            left: left - 1,
            filled: 0,
        },
        control: Control {
            current: stepped(control.device, frame),
            ..put(Register::Fdri, word, control)
        },
        event: Event::KeepAndStore {
            at: filled,
            word,
            frame,
        },
    }
}

#[tactic(auto, unfolding(crate::specs::DataWords::fdri_word, crate::specs::ControlState::raised, registers::specs::RegisterAddresses::address_of))]
fn fdri_word(left: u32, filled: u32, control: Control, word: u32) -> Transition
    ensures { result ≡ fdri_word left filled control word }
{
    if left <= 1 {
        let flags = Flags {
            buffer_valid: true,
            ..control.flags
        };
        return Transition {
            phase: ended(Register::Fdri),
            control: Control {
                flags,
                ..put(Register::Fdri, word, control)
            },
            event: Event::Keep { at: filled, word },
        };
    }
    if (filled as u64) + 1 < length_at(control.device) as u64 {
        return Transition {
            phase: Phase::Data {
                register: Register::Fdri,
                left: left - 1,
                filled: filled + 1,
            },
            control: put(Register::Fdri, word, control),
            event: Event::Keep { at: filled, word },
        };
    }
    frame_stored(left, filled, control, word)
}

// The second word stores the frame in hand.
#[tactic(auto, unfolding(crate::specs::DataWords::mfwr_word, crate::specs::DataWords::mfwr_stored))]
fn mfwr_word(left: u32, filled: u32, control: Control, word: u32) -> Transition
    ensures { result ≡ mfwr_word left filled control word }
{
    if 1 < left {
        return going(
            Phase::Data {
                register: Register::Mfwr,
                left: left - 1,
                filled,
            },
            put(Register::Mfwr, word, control),
        );
    }
    let Some(frame) = control.current else {
        return stopped(Stop::NoCurrentFrame, control);
    };
    Transition {
        phase: ended(Register::Mfwr),
        control: put(Register::Mfwr, word, control),
        event: Event::Store(frame),
    }
}

#[tactic(auto, unfolding(crate::specs::DataWords::idcode_word, crate::specs::ControlState::raised, registers::specs::RegisterAddresses::address_of))]
fn idcode_word(phase: Phase, control: Control, word: u32) -> Transition
    ensures { result ≡ idcode_word phase control word }
{
    if word != idcode_at(control.device) {
        return stopped(Stop::WrongIdcode, control);
    }
    let flags = Flags {
        idcode_ok: true,
        ..control.flags
    };
    going(
        phase,
        Control {
            flags,
            ..put(Register::Idcode, word, control)
        },
    )
}

#[tactic(auto, unfolding(crate::specs::DataWords::flr_word, crate::specs::ControlState::raised, registers::specs::RegisterAddresses::address_of))]
fn flr_word(phase: Phase, control: Control, word: u32) -> Transition
    ensures { result ≡ flr_word phase control word }
{
    if word.checked_add(1) != Some(length_at(control.device)) {
        return stopped(Stop::WrongFrameLength, control);
    }
    let flags = Flags {
        flr_ok: true,
        ..control.flags
    };
    going(
        phase,
        Control {
            flags,
            ..put(Register::Flr, word, control)
        },
    )
}

#[tactic(auto, unfolding(crate::specs::DataWords::data_word))]
pub(crate) fn data_word(
    register: Register,
    left: u32,
    filled: u32,
    control: Control,
    word: u32,
) -> Transition
    ensures { result ≡ data_word register left filled control word }
{
    let next = onward(register, left, filled);
    match register {
        Register::Crc => crc_word(next, control, word),
        Register::Far => far_word(next, control, word),
        Register::Fdri => fdri_word(left, filled, control, word),
        Register::Cmd => cmd_word(next, control, word),
        Register::Ctl | Register::Mask | Register::Lout | Register::Cor => {
            going(next, put(register, word, control))
        }
        Register::Mfwr => mfwr_word(left, filled, control, word),
        Register::Flr => flr_word(next, control, word),
        Register::Idcode => idcode_word(next, control, word),
    }
}

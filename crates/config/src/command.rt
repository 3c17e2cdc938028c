// What a command does when it acts (001, Table 2).
ghost use Rattle.std.specs.Prelude.{◌≡◌};
ghost use Rattle.config.specs.Commands.{signalled, command_crc, command_phase, acted};

use crate::header::going;
use crate::{Control, Flags, PartialWord, Phase, Registers, Transition};
use registers::command::{AGHIGH, DESYNC, LFRM, RCRC, START};

// DESYNC ends a pending start; the device starts if a check has passed since and the IDCODE was accepted.
#[tactic(auto, unfolding(crate::specs::Commands::signalled))]
fn signalled(command: u32, flags: Flags) -> Flags
    ensures { result ≡ signalled command flags }
{
    match command {
        LFRM => Flags {
            ghigh: false,
            ..flags
        },
        START => Flags {
            start_pending: true,
            check_passed: false,
            ..flags
        },
        AGHIGH => Flags {
            ghigh: true,
            ..flags
        },
        DESYNC => Flags {
            start_pending: false,
            started: flags.started || flags.start_pending && flags.check_passed && flags.idcode_ok,
            ..flags
        },
        _ => flags,
    }
}

#[tactic(auto, unfolding(crate::specs::Commands::command_crc))]
fn command_crc(command: u32, crc: u32) -> u32
    ensures { result ≡ command_crc command crc }
{
    if command == RCRC { 0 } else { crc }
}

#[tactic(auto, unfolding(crate::specs::Commands::command_phase))]
fn command_phase(command: u32, phase: Phase) -> Phase
    ensures { result ≡ command_phase command phase }
{
    if command == DESYNC {
        Phase::Hunting(PartialWord::Zero)
    } else {
        phase
    }
}

#[tactic(auto, unfolding(crate::specs::Commands::acted))]
pub(crate) fn act(command: u32, phase: Phase, control: Control) -> Transition
    ensures { result ≡ acted command phase control }
{
    let crc = command_crc(command, control.registers.crc);
    let registers = Registers {
        crc,
        ..control.registers
    };
    let flags = signalled(command, control.flags);
    going(
        command_phase(command, phase),
        Control {
            registers,
            flags,
            ..control
        },
    )
}

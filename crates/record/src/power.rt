// The record of a part that was just powered, and that of a refusal.
ghost use Rattle.std.specs.Prelude.{◌≡◌, Err};
ghost use Rattle.answers.specs.declared.LoadError.TheVariants as LoadError;
ghost use Rattle.record.specs.PowerOn.{fresh};

use crate::{PoweredOn, Record};
use answers::{LoadError, Refusal};
use config::{Control, Flags, PartialWord, Phase, Registers};

// The record of a part that was just powered.
#[tactic(auto, unfolding(crate::specs::PowerOn::fresh, crate::specs::PowerOn::fresh_control))]
pub(crate) fn fresh(device: u32) -> Record
    ensures { result ≡ fresh device }
{
    let control = Control {
        device,
        registers: Registers::default(),
        flags: Flags::default(),
        current: Some(0),
        partial: PartialWord::Zero,
    };
    Record {
        phase: Phase::Hunting(PartialWord::Zero),
        control,
        frame: [0; 213],
    }
}

// A refusal: the fresh record of device 0.
pub(crate) fn refused(refusal: Refusal) -> PoweredOn
    ensures record_value { result.«record» ≡ fresh 0 }
    ensures answer_value { result.answer ≡ Err (LoadError.Refused refusal) }
{
    PoweredOn {
        record: fresh(0),
        answer: Err(LoadError::Refused(refusal)),
    }
}

// Bytes: the hunt for the sync word, and words from bytes, high byte first.
ghost use Rattle.std.specs.Prelude.{◌≡◌};
ghost use Rattle.config.specs.StreamBytes.{hunted, gathered};

use crate::header::going;
use crate::{Control, PartialWord, Phase, Transition, word};
use words::word_of;

const SYNC: [u8; 4] = [0xAA, 0x99, 0x55, 0x66];

// The phase after a byte of the hunt.
#[tactic(auto, unfolding(crate::specs::StreamBytes::hunted, crate::specs::StreamBytes::is_sync))]
pub(crate) fn hunted(window: PartialWord, x: u8) -> Phase
    ensures { result ≡ hunted window x }
{
    match window {
        PartialWord::Zero => Phase::Hunting(PartialWord::One(x)),
        PartialWord::One(a) => Phase::Hunting(PartialWord::Two(a, x)),
        PartialWord::Two(a, b) => Phase::Hunting(PartialWord::Three(a, b, x)),
        PartialWord::Three(a, b, c) if [a, b, c, x] == SYNC => Phase::Header(None),
        PartialWord::Three(_, b, c) => Phase::Hunting(PartialWord::Three(b, c, x)),
    }
}

// A byte after sync: one more of the partial word, or the word that it completes.
#[tactic(auto, unfolding(crate::specs::StreamBytes::gathered))]
pub(crate) fn gathered(phase: Phase, control: Control, x: u8) -> Transition
    ensures { result ≡ gathered control.partial phase control x }
{
    let partial = match control.partial {
        PartialWord::Zero => PartialWord::One(x),
        PartialWord::One(a) => PartialWord::Two(a, x),
        PartialWord::Two(a, b) => PartialWord::Three(a, b, x),
        PartialWord::Three(a, b, c) => {
            let emptied = Control {
                partial: PartialWord::Zero,
                ..control
            };
            return word(phase, emptied, word_of(a, b, c, x));
        }
    };
    going(phase, Control { partial, ..control })
}

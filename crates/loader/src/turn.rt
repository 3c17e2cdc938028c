// A turn of the load: the next bytes of a piece.
ghost use Rattle.std.specs.Prelude.{◌≡◌, false, ◌≤◌, length};
ghost use Rattle.config.specs.PhaseTests.{is_stopped};
ghost use Rattle.loader.specs.Inner.Turn.{Turn};

use crate::fill::{fill, fillable};
use crate::store::apply;
use config::{PartialWord, Phase, is_hunting};
use parts::table::length_at;
use record::Record;
use registers::Register;
use words::word_at;

// Takes a byte, a word, or words that only fill the buffer: as many as one step can. How many bytes were taken.
#[tactic(auto, using(crate::specs::Inner::Turn::byte_turn, crate::specs::Inner::Turn::word_turn, crate::specs::Inner::Turn::fill_turn, parts::proofs::Laws::Figures::length_fits))]
pub(crate) fn advance(device: &mut Record, memory: &mut [u8], bytes: &[u8]) -> usize
    requires some { 1 ≤ length bytes.now }
    requires running { is_stopped device.old.phase ≡ false }
    ensures { Turn device.old memory.old device.new memory.new bytes.now result }
{
    if is_hunting(device.phase)
        || bytes.len() < 4
        || !matches!(device.control.partial, PartialWord::Zero)
    {
        let transition = config::byte(device.phase, device.control, bytes[0]);
        apply(transition, device, memory);
        return 1;
    }
    if let Phase::Data {
        register: Register::Fdri,
        left,
        filled,
    } = device.phase
    {
        let words = length_at(device.control.device);
        let n = fillable(left, filled, words, bytes.len() / 4);
        if 0 < n {
            fill(device, left, filled, n, bytes);
            return 4 * n;
        }
    }
    let transition = config::word(device.phase, device.control, word_at(bytes, 0));
    apply(transition, device, memory);
    4
}

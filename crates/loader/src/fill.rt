// Words of an FDRI packet that only fill the frame buffer: a loop that copies no record.
ghost use Rattle.std.specs.Prelude.{◌≡◌, ◌+◌, ◌-◌, ◌*◌, ◌≤◌, length};
ghost use Rattle.std.proofs.lemmas.List.Edits.{sets};
ghost use Rattle.registers.specs.declared.Register.TheVariants as Register;
ghost use Rattle.config.specs.declared.Phase.TheVariants as Phase;
ghost use Rattle.words.specs.WordsInBytes.{words_from};
ghost use Rattle.loader.specs.Inner.FillWords.{filled_registers, filled_control};

use config::{Phase, Registers};
use crc16::feed;
use record::Record;
use registers::{Register, address_of};
use words::word_at;

// How many of the words at hand only fill the buffer: none completes the frame or the packet.
pub(crate) fn fillable(left: u32, filled: u32, words: u32, room: usize) -> usize
    ensures { (result ≤ left - 1) × (result ≤ words - (filled + 1)) × (result ≤ room) }
{
    let packet = left.saturating_sub(1) as usize;
    let frame = words.saturating_sub(filled).saturating_sub(1) as usize;
    room.min(packet).min(frame)
}

// Puts a word into each place, feeds it to the CRC and holds it in FDRI.
fn put(places: &mut [u32], registers: &mut Registers, bytes: &[u8])
    requires { 4 * length places.old ≤ length bytes.now }
    ensures places_after { places.new ≡ words_from (length places.old) bytes.now }
    ensures registers_after { registers.new ≡ filled_registers (words_from (length places.old) bytes.now) registers.old }
{
    let fdri = address_of(Register::Fdri);
    let mut crc = registers.crc;
    let mut last = registers.fdri;
    for (k, place) in places.iter_mut().enumerate() {
        last = word_at(bytes, 4 * k);
        crc = feed(crc, fdri, last);
        *place = last;
    }
    registers.crc = crc;
    registers.fdri = last;
}

// Takes n of the words left, which only fill the buffer, and keeps them from the place `filled` on.
pub(crate) fn fill(device: &mut Record, left: u32, filled: u32, n: usize, bytes: &[u8])
    requires { (n ≤ left) × (filled + n ≤ 213) × (4 * n ≤ length bytes.now) }
    ensures phase_after { device.new.phase ≡ Phase.Data Register.Fdri (left - n) (filled + n) }
    ensures control_after { device.new.control ≡ filled_control (words_from n bytes.now) device.old.control }
    ensures frame_after { device.new.frame ≡ sets device.old.frame filled (words_from n bytes.now) }
{
    let from = filled as usize;
    put(
        &mut device.frame[from..from + n],
        &mut device.control.registers,
        bytes,
    );
    device.phase = Phase::Data {
        register: Register::Fdri,
        left: left - n as u32,
        filled: filled + n as u32,
    };
}

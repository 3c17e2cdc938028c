// Bytes into the device record that they would be the image of.
ghost use Rattle.std.specs.Prelude.{◌≡◌, ◌<◌};
ghost use Rattle.record_image.specs.Decode.{open_of, register_of, stop_of, pending_of, phase_of, partial_of, current_of, flags_of, registers_of, control_of, image_word, decoded};
ghost use Rattle.words.specs.WordsInBytes.{words_at};

use answers::Stop;
use config::{Control, Flags, PartialWord, Phase, Registers};
use record::{FrameBuffer, Record};
use registers::{Register, register_at};
use words::word_at;

// Word k of an image.
fn image_word(image: &[u8], k: usize) -> u32
    requires { k < 237 }
    ensures { result ≡ image_word image.now k }
{
    word_at(image, 4 * k)
}

// Word 2 of a header.
#[tactic(auto, unfolding(crate::specs::Decode::open_of))]
fn open_of(number: u32) -> Option<Register>
    ensures { result ≡ open_of number }
{
    number.checked_sub(1).and_then(register_at)
}

// Word 2 in data.
#[tactic(auto, unfolding(crate::specs::Decode::register_of))]
fn register_of(number: u32) -> Register
    ensures { result ≡ register_of number }
{
    register_at(number).unwrap_or(Register::Crc)
}

// Word 2 of a stopped device.
#[tactic(auto, unfolding(crate::specs::Decode::stop_of))]
fn stop_of(number: u32) -> Stop
    ensures { result ≡ stop_of number }
{
    match number {
        1 => Stop::BadHeader,
        2 => Stop::BadRegister,
        3 => Stop::ReadOperation,
        4 => Stop::WrongIdcode,
        5 => Stop::WrongFrameLength,
        6 => Stop::NotReady,
        7 => Stop::WrongCount,
        8 => Stop::CrcMismatch,
        9 => Stop::NoCurrentFrame,
        _ => Stop::UnknownCommand,
    }
}

// Words 5 and 6.
#[tactic(auto, unfolding(crate::specs::Decode::pending_of))]
fn pending_of(count: u32, number: u32) -> PartialWord
    ensures { result ≡ pending_of count number }
{
    let [_, a, b, c] = number.to_be_bytes();
    match count {
        0 => PartialWord::Zero,
        1 => PartialWord::One(c),
        2 => PartialWord::Two(b, c),
        _ => PartialWord::Three(a, b, c),
    }
}

// Words 1 to 4.
#[tactic(auto, unfolding(crate::specs::Decode::phase_of))]
fn phase_of(number: u32, argument: u32, left: u32, filled: u32, window: PartialWord) -> Phase
    ensures { result ≡ phase_of number argument left filled window }
{
    match number {
        0 => Phase::Hunting(window),
        1 => Phase::Header(open_of(argument)),
        2 => Phase::Data {
            register: register_of(argument),
            left,
            filled,
        },
        3 => Phase::Crc,
        _ => Phase::Stopped(stop_of(argument)),
    }
}

// The partial word, which is empty while hunting.
#[tactic(auto, unfolding(crate::specs::Decode::partial_of))]
fn partial_of(number: u32, bytes: PartialWord) -> PartialWord
    ensures { result ≡ partial_of number bytes }
{
    if number == 0 {
        PartialWord::Zero
    } else {
        bytes
    }
}

// Word 7.
#[tactic(auto, unfolding(crate::specs::Decode::current_of))]
fn current_of(number: u32) -> Option<u32>
    ensures { result ≡ current_of number }
{
    (number != 0xFFFFFFFF).then_some(number)
}

// Word 8.
fn flags_of(number: u32) -> Flags
    ensures { result ≡ flags_of number }
{
    Flags {
        idcode_ok: number & 1 == 1,
        flr_ok: number >> 1 & 1 == 1,
        buffer_valid: number >> 2 & 1 == 1,
        ghigh: number >> 3 & 1 == 1,
        start_pending: number >> 4 & 1 == 1,
        check_passed: number >> 5 & 1 == 1,
        started: number >> 6 & 1 == 1,
    }
}

// Words 9 to 23.
#[tactic(auto, unfolding(crate::specs::Decode::registers_of))]
fn registers_of(image: &[u8]) -> Registers
    ensures { result ≡ registers_of image.now }
{
    Registers {
        crc: image_word(image, 9),
        far: image_word(image, 10),
        fdri: image_word(image, 11),
        cmd: image_word(image, 13),
        ctl: image_word(image, 14),
        mask: image_word(image, 15),
        lout: image_word(image, 17),
        cor: image_word(image, 18),
        mfwr: image_word(image, 19),
        flr: image_word(image, 20),
        idcode: image_word(image, 23),
    }
}

// Words 0 and 7 to 23, around a partial word.
#[tactic(auto, unfolding(crate::specs::Decode::control_of))]
fn control_of(image: &[u8], partial: PartialWord) -> Control
    ensures { result ≡ control_of image.now partial }
{
    Control {
        device: image_word(image, 0),
        registers: registers_of(image),
        flags: flags_of(image_word(image, 8)),
        current: current_of(image_word(image, 7)),
        partial,
    }
}

// Words 24 to 236.
fn frame_of(image: &[u8]) -> FrameBuffer
    ensures { result ≡ words_at image.now 96 213 }
{
    std::array::from_fn(|i| image_word(image, 24 + i))
}

// The record that bytes would be the image of.
#[tactic(auto, unfolding(crate::specs::Decode::decoded))]
pub fn decode(image: &[u8]) -> Record
    ensures { result ≡ decoded image.now }
{
    let number = image_word(image, 1);
    let bytes = pending_of(image_word(image, 5), image_word(image, 6));
    let phase = phase_of(
        number,
        image_word(image, 2),
        image_word(image, 3),
        image_word(image, 4),
        bytes,
    );
    Record {
        phase,
        control: control_of(image, partial_of(number, bytes)),
        frame: frame_of(image),
    }
}

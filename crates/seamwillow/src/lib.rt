// The C interface: thin exported functions over the proved library. include/seamwillow.h declares them for C.
#![tactic(auto)]

ghost use Rattle.std.specs.Prelude.{◌≡◌, ◌%◌};
ghost use Rattle.crc16.specs.CrcRegister.{feed};
ghost use Rattle.parts.specs.Table.{part_of, part_refusal, idcode_at, length_at, count_at, memory_at};
ghost use Rattle.parts.specs.FrameAddress.{address_fields, frame_address, frame_number, address_at, number_refusal};
ghost use Rattle.answers.specs.AnswerNumbers.{answer_number, answer_value};
ghost use Rattle.layout.specs.Ownership.{range};
ghost use Rattle.numbers.specs.Number.{number_at, read_refusal, read_value, read_next};
ghost use Rattle.layout.specs.StepReading.{desk_step, step_refusal, step_offset};
ghost use Rattle.layout.specs.Layout.{check};
ghost use Rattle.reference.specs.Applied.{applied};
ghost use Rattle.compiler.specs.Compiled.{compiled};
ghost use Rattle.seamwillow.specs.NumberTold.{number_told};
ghost use Rattle.seamwillow.specs.RecordCalls.{powered_image, loaded_image, reconfigured_image};

use answers::{Refusal, answer_number, answer_value, load_number, refusal_number};
use compiler::compile;
use layout::FrameRange;
use layout::step::{read_step, step_offset, step_refusal};
use loader::load;
use numbers::{read_next, read_number, read_refusal, read_value};
use parts::frame::{address_fields, frame_address, frame_number, number_refusal};
use parts::table::{count_at, idcode_at, length_at, memory_at, part_of, part_refusal};
use reconfigure::reconfigure;
use record::power_on;
use record_image::RECORD_LENGTH;
use record_image::decode::decode;
use record_image::encode::{encode, matches};
use reference::apply;

// The CRC register after a word is fed for a register address.
#[unsafe(no_mangle)]
pub extern "C" fn sw_crc(crc: u32, reg: u32, word: u32) -> u32
    ensures { result ≡ feed (crc % 65536) (reg % 32) word }
{
    crc16::feed(crc % 65536, reg % 32, word)
}

// The figures of a part: 01's number is returned; IDCODE, words a frame, frames and bytes of memory are written.
#[unsafe(no_mangle)]
pub extern "C" fn sw_part(
    device: u32,
    idcode: &mut u32,
    frame_words: &mut u32,
    frames: &mut u32,
    memory_len: &mut u64,
) -> u32
    ensures value { result ≡ part_refusal (part_of device) }
    ensures idcode_after { idcode.new ≡ idcode_at device }
    ensures frame_words_after { frame_words.new ≡ length_at device }
    ensures frames_after { frames.new ≡ count_at device }
    ensures memory_len_after { memory_len.new ≡ memory_at device }
{
    *idcode = idcode_at(device);
    *frame_words = length_at(device);
    *frames = count_at(device);
    *memory_len = memory_at(device) as u64;
    part_refusal(part_of(device))
}

// The frame address of a frame number: 01's number is returned, the address written.
#[unsafe(no_mangle)]
pub extern "C" fn sw_frame_address(device: u32, number: u32, address: &mut u32) -> u32
    ensures value { result ≡ answer_number (frame_address device number) }
    ensures address_after { address.new ≡ address_at device number }
{
    let answer = frame_address(device, number);
    *address = answer_value(answer) as u32;
    answer_number(answer)
}

// The frame number that an answer tells, FFFFFFFF for none.
fn number_told(answer: Result<Option<u32>, Refusal>) -> u32
    ensures { result ≡ number_told answer }
{
    match answer {
        Ok(Some(number)) => number,
        _ => 0xFFFFFFFF,
    }
}

// The frame number of a frame address: 01's number is returned, the frame number written.
#[unsafe(no_mangle)]
pub extern "C" fn sw_frame_number(device: u32, address: u32, number: &mut u32) -> u32
    ensures value { result ≡ number_refusal (frame_number device address) }
    ensures number_after { number.new ≡ number_told (frame_number device address) }
{
    let answer = frame_number(device, address);
    *number = number_told(answer);
    number_refusal(answer)
}

// The fields of a frame address are written; nothing is refused.
#[unsafe(no_mangle)]
pub extern "C" fn sw_address_fields(address: u32, block: &mut u32, major: &mut u32, minor: &mut u32)
    ensures block_after { block.new ≡ (address_fields address).block }
    ensures major_after { major.new ≡ (address_fields address).major }
    ensures minor_after { minor.new ≡ (address_fields address).minor }
{
    let fields = address_fields(address);
    *block = fields.block;
    *major = fields.major;
    *minor = fields.minor;
}

// Power-on: the fresh record's image and the memory are written, 01's number is returned.
#[unsafe(no_mangle)]
#[tactic(auto, unfolding(crate::specs::RecordCalls::powered_image))]
pub extern "C" fn sw_power_on(device: u32, state: &mut [u8], memory: &mut [u8]) -> u32
    ensures value { result ≡ (powered_image device state.old memory.old).code }
    ensures state_after { state.new ≡ (powered_image device state.old memory.old).image }
    ensures memory_after { memory.new ≡ (powered_image device state.old memory.old).memory }
{
    if state.len() != RECORD_LENGTH {
        return refusal_number(Refusal::Inconsistent);
    }
    let on = power_on(device, memory);
    encode(on.record, state);
    load_number(on.answer)
}

// Load: the record's image and the memory are changed, 01's number is returned and the bytes taken are written.
#[unsafe(no_mangle)]
pub extern "C" fn sw_load(
    state: &mut [u8],
    memory: &mut [u8],
    stream: &[u8],
    taken: &mut u64,
) -> u32
    ensures value { result ≡ (loaded_image state.old memory.old stream.now).code }
    ensures state_after { state.new ≡ (loaded_image state.old memory.old stream.now).image }
    ensures memory_after { memory.new ≡ (loaded_image state.old memory.old stream.now).memory }
    ensures taken_after { taken.new ≡ (loaded_image state.old memory.old stream.now).taken }
{
    let record = decode(state);
    if !matches(record, state) {
        *taken = 0;
        return refusal_number(Refusal::Inconsistent);
    }
    let loaded = load(record, memory, stream);
    encode(loaded.record, state);
    *taken = loaded.taken;
    load_number(loaded.answer)
}

// Checks a layout: the number of its refusal is returned, the stream's length or the refusal's offset written.
#[unsafe(no_mangle)]
pub extern "C" fn sw_check(
    device: u32,
    first: u32,
    count: u32,
    layout: &[u8],
    value: &mut u64,
) -> u32
    ensures value { result ≡ answer_number (check device (range first count) layout.now) }
    ensures value_after { value.new ≡ answer_value (check device (range first count) layout.now) }
{
    let range = FrameRange { first, count };
    let answer = layout::check(device, range, layout);
    *value = answer_value(answer);
    answer_number(answer)
}

// The number that begins at an offset of a layout: its refusal is returned; value and the offset after it are written, 0 where refused.
#[unsafe(no_mangle)]
pub extern "C" fn sw_read_number(layout: &[u8], at: usize, value: &mut u32, next: &mut u64) -> u32
    ensures value { result ≡ read_refusal (number_at layout.now at) }
    ensures value_after { value.new ≡ read_value (number_at layout.now at) }
    ensures next_after { next.new ≡ read_next (number_at layout.now at) }
{
    let number = read_number(layout, at);
    *value = read_value(number);
    *next = read_next(number) as u64;
    read_refusal(number)
}

// The step that begins at an offset of a layout: its refusal is returned, the offset after it or that of the refusal written.
#[unsafe(no_mangle)]
pub extern "C" fn sw_read_step(
    device: u32,
    first: u32,
    count: u32,
    layout: &[u8],
    at: usize,
    value: &mut u64,
) -> u32
    ensures value { result ≡ step_refusal (desk_step device (range first count) layout.now at) }
    ensures value_after { value.new ≡ step_offset (desk_step device (range first count) layout.now at) }
{
    let range = FrameRange { first, count };
    let step = read_step(device, range, layout, at);
    *value = step_offset(step) as u64;
    step_refusal(step)
}

// Applies a layout to a memory, which a refusal leaves: its number is returned, the value written as by sw_check.
#[unsafe(no_mangle)]
pub extern "C" fn sw_apply(
    device: u32,
    first: u32,
    count: u32,
    layout: &[u8],
    memory: &mut [u8],
    value: &mut u64,
) -> u32
    ensures value { result ≡ answer_number (applied device (range first count) layout.now memory.old).answer }
    ensures memory_after { memory.new ≡ (applied device (range first count) layout.now memory.old).memory }
    ensures value_after { value.new ≡ answer_value (applied device (range first count) layout.now memory.old).answer }
{
    let range = FrameRange { first, count };
    let answer = apply(device, range, layout, memory);
    *value = answer_value(answer);
    answer_number(answer)
}

// Compiles a layout into an output, which a refusal leaves: its number is returned, the length or the refusal's offset written.
#[unsafe(no_mangle)]
pub extern "C" fn sw_compile(
    device: u32,
    first: u32,
    count: u32,
    layout: &[u8],
    out: &mut [u8],
    value: &mut u64,
) -> u32
    ensures value { result ≡ answer_number (compiled device (range first count) layout.now out.old).answer }
    ensures out_after { out.new ≡ (compiled device (range first count) layout.now out.old).output }
    ensures value_after { value.new ≡ answer_value (compiled device (range first count) layout.now out.old).answer }
{
    let range = FrameRange { first, count };
    let answer = compile(device, range, layout, out);
    *value = answer_value(answer);
    answer_number(answer)
}

// Compiles for the record's own device and loads the stream; a refusal changes nothing. The value is written as by sw_compile.
#[unsafe(no_mangle)]
pub extern "C" fn sw_reconfigure(
    state: &mut [u8],
    memory: &mut [u8],
    first: u32,
    count: u32,
    layout: &[u8],
    out: &mut [u8],
    value: &mut u64,
) -> u32
    ensures value { result ≡ (reconfigured_image state.old memory.old (range first count) layout.now out.old).code }
    ensures state_after { state.new ≡ (reconfigured_image state.old memory.old (range first count) layout.now out.old).image }
    ensures memory_after { memory.new ≡ (reconfigured_image state.old memory.old (range first count) layout.now out.old).memory }
    ensures out_after { out.new ≡ (reconfigured_image state.old memory.old (range first count) layout.now out.old).output }
    ensures value_after { value.new ≡ (reconfigured_image state.old memory.old (range first count) layout.now out.old).value }
{
    let record = decode(state);
    if !matches(record, state) {
        *value = 0;
        return refusal_number(Refusal::Inconsistent);
    }
    let range = FrameRange { first, count };
    let done = reconfigure(record, memory, range, layout, out);
    encode(done.record, state);
    *value = answer_value(done.answer);
    answer_number(done.answer)
}

// The configuration logic as a control machine: phase and control state in, a word or a byte, the next ones and an event out.
// It holds no frame words and no memory; the loader applies the events.
#![tactic(auto)]

use answers::Stop;
use registers::Register;

// Zero to three bytes: the sync window while hunting, the partial word after it.
#[derive(Clone, Copy)]
pub enum PartialWord {
    Zero,
    One(u8),
    Two(u8, u8),
    Three(u8, u8, u8),
}

// A header word: nothing to do (padding, no operation), a type 1 write to an address, a type 2 write to the open register, a
// read, or a header of no allowed kind.
#[derive(Clone, Copy)]
pub enum PacketHeader {
    Idle,
    Write { address: u32, count: u32 },
    LongWrite { register: Register, count: u32 },
    Read,
    Bad,
}

// The phases, each with what it must know. A header knows the register that a type 2 header would use: that of the word before, if
// it was a type 1 write of count 0. filled counts the words of the frame that an FDRI packet has filled.
#[derive(Clone, Copy)]
pub enum Phase {
    Hunting(PartialWord),
    Header(Option<Register>),
    Data {
        register: Register,
        left: u32,
        filled: u32,
    },
    Crc,
    Stopped(Stop),
}

// The CRC register, and the last word that was written to each other register.
#[derive(Clone, Copy, Default)]
pub struct Registers {
    pub crc: u32,
    pub far: u32,
    pub fdri: u32,
    pub cmd: u32,
    pub ctl: u32,
    pub mask: u32,
    pub lout: u32,
    pub cor: u32,
    pub mfwr: u32,
    pub flr: u32,
    pub idcode: u32,
}

// check_passed: a check has passed since START or power-on. buffer_valid: a frame is in the frame buffer.
#[derive(Clone, Copy, Default)]
pub struct Flags {
    pub idcode_ok: bool,
    pub flr_ok: bool,
    pub buffer_valid: bool,
    pub ghigh: bool,
    pub start_pending: bool,
    pub check_passed: bool,
    pub started: bool,
}

// The record but for the phase and the frame buffer. current: the frame that the next store goes to.
#[derive(Clone, Copy)]
pub struct Control {
    pub device: u32,
    pub registers: Registers,
    pub flags: Flags,
    pub current: Option<u32>,
    pub partial: PartialWord,
}

// What a word asks of the frame buffer and the memory: keep the word at a place of the buffer, store the buffer at a frame.
#[derive(Clone, Copy)]
pub enum Event {
    Nothing,
    Keep { at: u32, word: u32 },
    KeepAndStore { at: u32, word: u32, frame: u32 },
    Store(u32),
}

// The machine after a word or a byte, and the event.
#[derive(Clone, Copy)]
pub struct Transition {
    pub phase: Phase,
    pub control: Control,
    pub event: Event,
}

mod command; // command.rt: what a command does
mod header; // header.rt: header words
mod writes; // writes.rt: a word written to a register
mod data; // data.rt: a data word to each register
mod stream; // stream.rt: the hunt, and words from bytes

ghost use Rattle.std.specs.Prelude.{◌≡◌};
ghost use Rattle.config.specs.PhaseTests.{is_hunting, is_stopped};
ghost use Rattle.config.specs.DataWords.{word};
ghost use Rattle.config.specs.StreamBytes.{byte};

// Waiting for sync, with any bytes remembered.
pub fn is_hunting(phase: Phase) -> bool
    ensures { result ≡ is_hunting phase }
{
    matches!(phase, Phase::Hunting(_))
}

// Stopped: no byte is taken any more.
pub fn is_stopped(phase: Phase) -> bool
    ensures { result ≡ is_stopped phase }
{
    matches!(phase, Phase::Stopped(_))
}

// Phase and control stand apart: the definitions and the laws of every step speak of each. A whole word; hunting, which takes bytes, and stopped, which takes nothing, are handed back as they are.
#[tactic(auto, unfolding(crate::specs::DataWords::word))]
pub fn word(phase: Phase, control: Control, w: u32) -> Transition
    ensures { result ≡ word phase control w }
{
    match phase {
        Phase::Hunting(_) | Phase::Stopped(_) => header::going(phase, control),
        Phase::Header(opened) => header::header_word(opened, control, w),
        Phase::Data {
            register,
            left,
            filled,
        } => data::data_word(register, left, filled, control, w),
        Phase::Crc => data::crc_word(Phase::Header(None), control, w),
    }
}

// One byte. A stopped machine takes none: it is handed back as it is.
#[tactic(auto, unfolding(crate::specs::StreamBytes::byte))]
pub fn byte(phase: Phase, control: Control, x: u8) -> Transition
    ensures { result ≡ byte phase control x }
{
    match phase {
        Phase::Hunting(window) => {
            let emptied = Control {
                partial: PartialWord::Zero,
                ..control
            };
            header::going(stream::hunted(window, x), emptied)
        }
        Phase::Header(_) | Phase::Data { .. } | Phase::Crc => stream::gathered(phase, control, x),
        Phase::Stopped(_) => header::going(phase, control),
    }
}

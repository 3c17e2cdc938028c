// The writer of a stream: words and packets into the output, with the CRC that runs along.
ghost use Rattle.std.specs.Prelude.{◌≡◌, [], ◌∷◌, ◌+◌, ◌≤◌, ◌<◌, length};
ghost use Rattle.crc16.specs.CrcRegister.{feed};
ghost use Rattle.registers.specs.RegisterAddresses.{address_of};
ghost use Rattle.stream.specs.StreamPackets.{Packet, header1};
ghost use Rattle.compiler.specs.Inner.PacketWriting.{Put, Room, Written};

use crc16::check_word;
use registers::command::RCRC;
use registers::{Register, address_of};

// A write header of type 1, for register 0 and no word: type 1 in bits 31..29, operation 2 in 28..27.
const WRITE: u32 = 0x30000000;

// A header's register stands from bit 13 on.
const REGISTER: u32 = 0x2000;

// The output, where its next word goes, and the CRC so far. The methods are inlined by force, since only so are place and
// CRC kept in registers: without, the compiler ran a quarter slower.
#[derive(Drop)]
pub(crate) struct Writer<'a> {
    output: &'a mut [u8],
    at: usize,
    pub(crate) crc: u32,
}

// The header of a write of n words to a register.
#[tactic(auto, using(registers::specs::Laws::AddressLookup::address_bound))]
pub(crate) fn header(register: Register, n: u32) -> u32
    requires { n < 8192 }
    ensures { result ≡ header1 register n }
{
    WRITE + address_of(register) * REGISTER + n
}

#[tactic(auto, unfolding(stream::specs::Laws::StreamLength::size, stream::specs::Laws::StreamLength::sizes,))]
impl<'a> Writer<'a> {
    // A writer at the start of an output.
    pub(crate) fn new(output: &'a mut [u8]) -> Writer<'a>
        ensures same_output { result.output.ghost_name ≡ output.entry.ghost_name }
        ensures output { result.output.now ≡ output.old }
        ensures place { result.at ≡ 0 }
        ensures crc { result.crc ≡ 0 }
    {
        Writer {
            output,
            at: 0,
            crc: 0,
        }
    }

    // Writes a word that has room, high byte first. One that tests for room was slower (docs/DECISIONS.md, "Words in bytes").
    #[tactic(auto, unfolding(words::specs::WordsInBytes::bytes_of), using(words::proofs::Laws::WordStores::put_copied))]
    #[inline(always)]
    pub(crate) fn word(&mut self, word: u32)
        requires { self.old.at + 4 ≤ length self.old.output.now }
        ensures { Put self.old (word ∷ []) self.old.crc self.new }
    {
        self.output[self.at..self.at + 4].copy_from_slice(&word.to_be_bytes());
        self.at += 4;
    }

    // Writes a word and feeds it for a register.
    #[inline(always)]
    pub(crate) fn fed(&mut self, register: Register, word: u32)
        requires { self.old.at + 4 ≤ length self.old.output.now }
        ensures { Put self.old (word ∷ []) (feed self.old.crc (address_of register) word) self.new }
    {
        self.word(word);
        self.crc = crc16::feed(self.crc, address_of(register), word);
    }

    // Writes a word to a register.
    #[inline(always)]
    pub(crate) fn write(&mut self, register: Register, word: u32)
        requires { Room self.old (Packet.Write register word ∷ []) }
        ensures { Written self.old (Packet.Write register word ∷ []) self.new }
    {
        self.word(header(register, 1));
        self.fed(register, word);
    }

    // Writes a command. RCRC makes the CRC zero.
    #[tactic(auto, unfolding(stream::specs::Laws::StreamLength::size, stream::specs::Laws::StreamLength::sizes, stream::specs::StreamPackets::crc_of, stream::specs::StreamPackets::packet_words, stream::specs::StreamPackets::packets_words, stream::specs::Laws::PacketsJoined::crc_after,))]
    #[inline(always)]
    pub(crate) fn command(&mut self, command: u32)
        requires { Room self.old (Packet.Command command ∷ []) }
        ensures { Written self.old (Packet.Command command ∷ []) self.new }
    {
        self.write(Register::Cmd, command);
        if command == RCRC {
            self.crc = 0;
        }
    }

    // Writes the word that passes the check to CRC.
    #[inline(always)]
    pub(crate) fn check(&mut self)
        requires { Room self.old (Packet.Check ∷ []) }
        ensures { Written self.old (Packet.Check ∷ []) self.new }
    {
        self.word(header(Register::Crc, 1));
        self.word(check_word(self.crc));
        self.crc = 0;
    }

    // Writes two zero words to MFWR.
    #[inline(always)]
    pub(crate) fn multi(&mut self)
        requires { Room self.old (Packet.MultiFrame ∷ []) }
        ensures { Written self.old (Packet.MultiFrame ∷ []) self.new }
    {
        self.word(header(Register::Mfwr, 2));
        self.fed(Register::Mfwr, 0);
        self.fed(Register::Mfwr, 0);
    }
}

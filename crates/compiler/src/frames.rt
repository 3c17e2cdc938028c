// Frame data into the output.
ghost use Rattle.std.specs.Prelude.{◌≡◌, [], ◌∷◌, ◌++◌, ℕ, ◌+◌, ◌*◌, ◌/◌, ◌≤◌, ◌<◌, length, replicate};
ghost use Rattle.crc16.specs.CrcRegister.{fed_words};
ghost use Rattle.stream.specs.StreamPackets.{Packet};
ghost use Rattle.compiler.specs.Inner.PacketWriting.{Put, Written};
ghost use Rattle.compiler.specs.Inner.FrameDataWords.{data_words};

use crate::packet::{Writer, header};
use crc16::check_word;
use registers::Register;

// A write header of type 2, for no word: it goes on for the register of the header before it.
const LONG_WRITE: u32 = 0x50000000;

impl Writer<'_> {
    // Writes the words of frame data, and feeds them for FDRI.
    #[inline(always)]
    fn data(&mut self, words: &[u8])
        requires { self.old.at + 4 * (length words.now / 4) ≤ length self.old.output.now }
        ensures { Put self.old (data_words words.now) (fed_words self.old.crc 2 (data_words words.now)) self.new }
    {
        for &word in words.as_chunks::<4>().0 {
            self.fed(Register::Fdri, u32::from_be_bytes(word));
        }
    }

    // Writes n zero words, and feeds them for FDRI.
    #[inline(always)]
    fn zeros(&mut self, n: usize)
        requires { self.old.at + 4 * n ≤ length self.old.output.now }
        ensures { Put self.old (replicate {A = ℕ} n 0) (fed_words self.old.crc 2 (replicate {A = ℕ} n 0)) self.new }
    {
        for _ in 0..n {
            self.fed(Register::Fdri, 0);
        }
    }

    // Writes frame data and zero words after it to FDRI, with the auto CRC word.
    #[inline(always)]
    pub(crate) fn frames(&mut self, words: &[u8], zeros: usize)
        requires { (length words.now / 4 + zeros < 134217728) × (self.old.at + 4 * (3 + length words.now / 4 + zeros) ≤ length self.old.output.now) }
        ensures { Written self.old (Packet.FrameData (data_words words.now ++ replicate {A = ℕ} zeros 0) ∷ []) self.new }
    {
        self.word(header(Register::Fdri, 0));
        self.word(LONG_WRITE + (words.len() / 4 + zeros) as u32);
        self.data(words);
        self.zeros(zeros);
        self.word(check_word(self.crc));
        self.crc = 0;
    }
}

// The CRC register of the configuration logic: feed a data word, and the word that passes the check.
#![tactic(auto)]

ghost use Rattle.std.specs.Prelude.{◌≡◌, ◌<◌};
ghost use Rattle.crc16.specs.CrcRegister.{feed, check_word};
ghost use Rattle.crc16.specs.NibbleTable.{entries, looked_up, feed_with};

mod nibbles; // nibbles.rt: what each nibble adds

use nibbles::TABLE;

// Four groups, of four places, of sixteen nibbles.
pub type CrcTable = [u16; 256];

// What the low half-word of x picks from the table: group 0 as the register, 1 and 2 as the word's low and high half, 3 as the address.
#[tactic(auto, unfolding(crate::specs::NibbleTable::looked_up))]
fn part(table: &CrcTable, group: usize, x: u32) -> u16
    requires { group < 4 }
    ensures { result ≡ looked_up table.now group x }
{
    let n = x as usize;
    let row = 64 * group;
    let a = table[row + (n & 15)];
    let b = table[row + 16 + (n >> 4 & 15)];
    let c = table[row + 32 + (n >> 8 & 15)];
    let d = table[row + 48 + (n >> 12 & 15)];
    d ^ (c ^ (b ^ a))
}

// `feed` with the table lent.
#[tactic(auto, unfolding(crate::specs::NibbleTable::feed_with))]
pub fn feed_with(table: &CrcTable, crc: u32, address: u32, word: u32) -> u32
    ensures { result ≡ feed_with table.now crc address word }
{
    let register = part(table, 0, crc);
    let low = part(table, 1, word);
    let high = part(table, 2, word >> 16);
    let to = part(table, 3, address);
    (register ^ (to ^ (high ^ low))) as u32
}

// The table with which `feed_with` feeds as `feed` does.
#[tactic(auto, unfolding(crate::specs::NibbleTable::entries, crate::specs::NibbleTable::entry, crate::specs::NibbleTable::share, crate::specs::CrcRegister::feed, crate::specs::CrcRegister::shift_in, crate::specs::CrcRegister::shift, crate::specs::CrcRegister::input))]
pub fn table() -> CrcTable
    ensures { result ≡ entries 256 0 }
{
    TABLE
}

// The register after a data word for a register address (its low five bits); only the low sixteen bits of crc count.
pub fn feed(crc: u32, address: u32, word: u32) -> u32
    ensures { result ≡ feed crc address word }
{
    // the constant itself: a copy of it, one that `table` returns too, makes a call three to four times slower
    feed_with(&TABLE, crc, address, word)
}

// The word that passes the check: the register's bits in the order in which they leave it, bit 15 first.
#[tactic(auto, using(crate::proofs::Laws::ReversedBits::check_word_reversed))]
pub fn check_word(crc: u32) -> u32
    ensures { result ≡ check_word crc }
{
    crc.reverse_bits() >> 16
}

// Words of 32 bits in bytes, high byte first: read, written, compared.
#![tactic(auto)]

ghost use Rattle.std.specs.Prelude.{◌≡◌, [], ◌∷◌, ◌+◌, ◌*◌, ◌≤◌, length, get_or, set};
ghost use Rattle.words.specs.WordsInBytes.{word_of, word_at, put_words, has_words};

// The word of four bytes.
pub fn word_of(a: u8, b: u8, c: u8, d: u8) -> u32
    ensures { result ≡ word_of a b c d }
{
    u32::from_be_bytes([a, b, c, d])
}

// The byte at an offset, 0 past the end.
fn byte_at(bytes: &[u8], at: usize) -> u8
    ensures { result ≡ get_or bytes.now at 0 }
{
    bytes.get(at).copied().unwrap_or(0)
}

// The word at an offset near the end or past it.
#[tactic(auto, unfolding(crate::specs::WordsInBytes::word_at), using(crate::proofs::Laws::WordReads::word_past))]
fn last_word(bytes: &[u8], at: usize) -> u32
    ensures { result ≡ word_at bytes.now at }
{
    if bytes.len() <= at {
        return 0;
    }
    word_of(
        byte_at(bytes, at),
        byte_at(bytes, at + 1),
        byte_at(bytes, at + 2),
        byte_at(bytes, at + 3),
    )
}

// The word at an offset; bytes past the end are 0.
#[tactic(auto, unfolding(crate::specs::WordsInBytes::word_at))]
pub fn word_at(bytes: &[u8], at: usize) -> u32
    ensures { result ≡ word_at bytes.now at }
{
    // one test for all four bytes
    if 4 <= bytes.len() && at <= bytes.len() - 4 {
        return word_of(bytes[at], bytes[at + 1], bytes[at + 2], bytes[at + 3]);
    }
    last_word(bytes, at)
}

// Writes a byte, where there is one. By index: of `get_mut` std says nothing about the other bytes.
fn put_byte(bytes: &mut [u8], at: usize, byte: u8)
    ensures { bytes.new ≡ set bytes.old at byte }
{
    if at < bytes.len() {
        bytes[at] = byte;
    }
}

// Writes a word near the end or past it.
#[tactic(auto, using(crate::proofs::Laws::WordStores::sets_past, crate::proofs::Laws::WordStores::put_bytes))]
fn put_last(bytes: &mut [u8], at: usize, word: u32)
    ensures { bytes.new ≡ put_words bytes.old at (word ∷ []) }
{
    if bytes.len() <= at {
        return;
    }
    let [a, b, c, d] = word.to_be_bytes();
    put_byte(bytes, at, a);
    put_byte(bytes, at + 1, b);
    put_byte(bytes, at + 2, c);
    put_byte(bytes, at + 3, d);
}

// Writes a word that fits.
#[tactic(auto, unfolding(crate::specs::WordsInBytes::bytes_of), using(crate::proofs::Laws::WordStores::put_copied))]
fn put_whole(bytes: &mut [u8], at: usize, word: u32)
    requires { at + 4 ≤ length bytes.old }
    ensures { bytes.new ≡ put_words bytes.old at (word ∷ []) }
{
    bytes[at..at + 4].copy_from_slice(&word.to_be_bytes());
}

// Writes words that fit.
#[tactic(auto, using(crate::proofs::Laws::WordStores::put_next, crate::proofs::Laws::WordStores::put_done))]
fn put_all(bytes: &mut [u8], at: usize, words: &[u32])
    requires { at + 4 * length words.now ≤ length bytes.old }
    ensures { bytes.new ≡ put_words bytes.old at words.now }
{
    for (i, &word) in words.iter().enumerate() {
        put_whole(bytes, at + 4 * i, word);
    }
}

// Writes words one after the other from an offset on; bytes past the end are left out.
#[tactic(auto, using(crate::proofs::Laws::WordStores::sets_past, crate::proofs::Laws::WordStores::put_short))]
pub fn put_words(bytes: &mut [u8], at: usize, words: &[u32])
    ensures { bytes.new ≡ put_words bytes.old at words.now }
{
    if bytes.len() <= at {
        return;
    }
    let n = (bytes.len() - at) / 4;
    if words.len() <= n {
        put_all(bytes, at, words);
        return;
    }
    put_all(bytes, at, &words[..n]);
    put_last(bytes, at + 4 * n, words[n]);
}

// Bytes that have room for words start with those of the words.
fn has_all(bytes: &[u8], at: usize, words: &[u32]) -> bool
    requires { at + 4 * length words.now ≤ length bytes.now }
    ensures { result ≡ has_words bytes.now at words.now }
{
    words
        .iter()
        .enumerate()
        .all(|(i, &word)| word_at(bytes, at + 4 * i) == word)
}

// The bytes from an offset on start with those of the words.
#[tactic(auto, using(crate::proofs::Laws::WordTests::has_past, crate::proofs::Laws::WordTests::has_short))]
pub fn has_words(bytes: &[u8], at: usize, words: &[u32]) -> bool
    ensures { result ≡ has_words bytes.now at words.now }
{
    if bytes.len() <= at {
        return words.is_empty();
    }
    if (bytes.len() - at) / 4 < words.len() {
        return false;
    }
    has_all(bytes, at, words)
}

// A device record as its image of 948 bytes, and back (docs/C-INTERFACE.md, "The record's image, edition 1").
#![tactic(auto)]

pub mod decode;
pub mod encode;
mod head;

// The bytes of an image: 237 words of 32 bits.
pub const RECORD_LENGTH: usize = 948;

// The frame buffer and the memory, and what an event does to each.
ghost use Rattle.std.specs.Prelude.{◌≡◌, set};
ghost use Rattle.parts.specs.Table.{length_at};
ghost use Rattle.loader.specs.EventEffects.{store_within, buffered, stored};
ghost use Rattle.loader.specs.Run.{record_after, memory_after};

use config::{Event, Transition};
use parts::table::length_at;
use record::Record;
use words::put_words;

// Stores the buffer as a frame, where the memory holds that frame.
#[tactic(auto, unfolding(crate::specs::EventEffects::store_within), using(parts::proofs::Laws::Figures::length_fits, parts::specs::Laws::FramePlacing::placed_sets, words::proofs::Laws::WordBytes::first_bytes))]
fn store(device: &Record, n: u32, memory: &mut [u8])
    ensures { memory.new ≡ store_within (length_at device.now.control.device) n device.now.frame memory.old }
{
    let words = length_at(device.control.device) as usize;
    let size = 4 * words;
    let at = size * n as usize;
    if at + size <= memory.len() {
        put_words(memory, at, &device.frame[..words]);
    }
}

// Keeps a word at a place of the buffer, where there is one. By index: of `get_mut` std says nothing about the other words.
fn keep(device: &mut Record, at: u32, word: u32)
    ensures { device.new ≡ record device.old { frame = set device.old.frame at word } }
{
    let i = at as usize;
    if i < device.frame.len() {
        device.frame[i] = word;
    }
}

// What an event does to the buffer and to the memory.
#[tactic(auto, unfolding(crate::specs::EventEffects::buffered, crate::specs::EventEffects::stored))]
fn enact(event: Event, device: &mut Record, memory: &mut [u8])
    ensures device_after { device.new ≡ record device.old { frame = buffered event device.old.frame } }
    ensures memory_after { memory.new ≡ stored (length_at device.old.control.device) event device.old.frame memory.old }
{
    match event {
        Event::Nothing => {}
        Event::Keep { at, word } => keep(device, at, word),
        Event::KeepAndStore { at, word, frame } => {
            keep(device, at, word);
            store(device, frame, memory);
        }
        Event::Store(frame) => store(device, frame, memory),
    }
}

// Applies what the control machine made of a word or a byte.
pub(crate) fn apply(transition: Transition, device: &mut Record, memory: &mut [u8])
    ensures device_after { device.new ≡ record_after transition device.old }
    ensures memory_after { memory.new ≡ memory_after transition device.old memory.old }
{
    enact(transition.event, device, memory);
    device.phase = transition.phase;
    device.control = transition.control;
}

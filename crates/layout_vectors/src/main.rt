// Prints 01's worked examples of layouts, a way to each refusal, and what single numbers and steps answer, as the proved library
// answers them.
#![tactic(auto)]

use answers::{Refused, refusal_number};
use layout::step::{read_step, step_offset};
use layout::{FrameRange, check};
use numbers::read_number;
use std::io;

// A label, then the length of the stream, or the refusal and its offset.
fn print_check(
    rt: &impl Print,
    label: &str,
    device: u32,
    range: FrameRange,
    layout: &[u8],
) -> io::Result<()> {
    match check(device, range, layout) {
        Ok(length) => println!(rt; "{label}: {length} bytes"),
        Err(refused) => print_refused(rt, label, refused),
    }
}

// A label, then a refusal and its offset.
fn print_refused(rt: &impl Print, label: &str, refused: Refused) -> io::Result<()> {
    let number = refusal_number(refused.refusal);
    let offset = refused.told;
    println!(rt; "{label}: {number} at {offset}")
}

// A label, then the number that the bytes begin with, or the refusal.
fn print_number(rt: &impl Print, label: &str, bytes: &[u8]) -> io::Result<()> {
    match read_number(bytes, 0) {
        Ok(number) => println!(rt; "{label}: number {}", number.value),
        Err(refusal) => println!(rt; "{label}: refused {}", refusal_number(refusal)),
    }
}

// A label, then the offset after the step that begins at offset 3, or the refusal and its offset.
fn print_step(rt: &impl Print, label: &str, device: u32, layout: &[u8]) -> io::Result<()> {
    let step = read_step(device, whole(), layout, 3);
    match step {
        Ok(_) => println!(rt; "{label}: ends at {}", step_offset(step)),
        Err(refused) => print_refused(rt, label, refused),
    }
}

// All frames of the XC3S50.
fn whole() -> FrameRange {
    FrameRange {
        first: 0,
        count: 368,
    }
}

fn some(first: u32, count: u32) -> FrameRange {
    FrameRange { first, count }
}

fn print_heads(rt: &impl Print) -> io::Result<()> {
    print_check(rt, "no bytes", 0, whole(), b"")?;
    print_check(rt, "81 00 00 00", 0, whole(), b"\x81\x00\x00\x00")?;
    print_check(rt, "02 00 00", 0, whole(), b"\x02\x00\x00")?;
    print_check(rt, "01 01 00", 0, whole(), b"\x01\x01\x00")?;
    print_check(rt, "01 00 00", 0, whole(), b"\x01\x00\x00")
}

// The desk's own numbers.
fn print_ranges(rt: &impl Print) -> io::Result<()> {
    print_check(
        rt,
        "01 00 00, range 364 count 4",
        0,
        some(364, 4),
        b"\x01\x00\x00",
    )?;
    print_check(
        rt,
        "01 00 00, range 364 count 5",
        0,
        some(364, 5),
        b"\x01\x00\x00",
    )?;
    print_check(
        rt,
        "01 00 00, range 368 count 0",
        0,
        some(368, 0),
        b"\x01\x00\x00",
    )?;
    print_check(
        rt,
        "01 00 00, range 369 count 0",
        0,
        some(369, 0),
        b"\x01\x00\x00",
    )?;
    print_check(rt, "01 00 00, device 8", 8, whole(), b"\x01\x00\x00")
}

// The numbers after a layout's edition.
fn print_counts(rt: &impl Print) -> io::Result<()> {
    print_check(rt, "01 08 00", 0, whole(), b"\x01\x08\x00")?;
    print_check(
        rt,
        "01 00 81 20, 4097 steps",
        0,
        whole(),
        b"\x01\x00\x81\x20",
    )?;
    print_check(rt, "01 00 80 00", 0, whole(), b"\x01\x00\x80\x00")?;
    print_check(
        rt,
        "01 00 ff ff ff ff 10",
        0,
        whole(),
        b"\x01\x00\xff\xff\xff\xff\x10",
    )?;
    print_check(rt, "01 00 ff", 0, whole(), b"\x01\x00\xff")?;
    print_check(rt, "01 00 00 00", 0, whole(), b"\x01\x00\x00\x00")
}

// One step of kind 1, with frames of zeros.
fn print_frame_writes(rt: &impl Print) -> io::Result<()> {
    let mut b = [0u8; 451];
    b[0] = 1;
    b[2] = 1;
    b[3] = 1;
    b[5] = 1;
    print_check(rt, "one frame by kind 1", 0, whole(), &b[..154])?;
    print_check(rt, "its last byte missing", 0, whole(), &b[..153])?;
    print_check(rt, "a byte after it", 0, whole(), &b[..155])?;
    b[5] = 0;
    print_check(rt, "kind 1, count 0", 0, whole(), &b[..154])?;
    b[5] = 3;
    print_check(rt, "three frames by kind 1", 0, whole(), &b[..450])?;
    b[4] = 0xEF;
    b[5] = 2;
    b[6] = 1;
    print_check(rt, "kind 1, frame 367 count 1", 0, whole(), &b[..155])?;
    b[6] = 2;
    print_check(rt, "kind 1, frame 367 count 2", 0, whole(), &b[..155])?;
    b[4] = 0x80;
    b[6] = 1;
    print_check(
        rt,
        "01 00 01 01 80 02 01, range 0 count 256",
        0,
        some(0, 256),
        &b[..7],
    )?;
    b[3] = 3;
    print_check(rt, "kind 3", 0, whole(), &b[..155])
}

// One step of kind 2, with a frame of zeros; its targets begin at 153.
fn print_multi_frame_writes(rt: &impl Print) -> io::Result<()> {
    let mut b = [0u8; 157];
    b[0] = 1;
    b[2] = 1;
    b[3] = 2;
    print_check(rt, "kind 2, count 0", 0, whole(), &b[..154])?;
    b[4] = 1;
    b[153] = 5;
    print_check(rt, "kind 2 to one target", 0, whole(), &b[..154])?;
    print_check(
        rt,
        "kind 2, its frame's last byte missing",
        0,
        whole(),
        &b[..152],
    )?;
    print_check(rt, "kind 2, its target missing", 0, whole(), &b[..153])?;
    print_check(
        rt,
        "kind 2, target 5, range 0 count 5",
        0,
        some(0, 5),
        &b[..154],
    )?;
    b[4] = 3;
    b[154] = 6;
    b[155] = 7;
    print_check(rt, "kind 2 to three targets", 0, whole(), &b[..156])?;
    b[155] = 6;
    print_check(rt, "kind 2, a target repeated", 0, whole(), &b[..156])?;
    b[4] = 2;
    b[154] = 0xF0;
    b[155] = 2;
    print_check(rt, "kind 2, target 368", 0, whole(), &b[..156])?;
    b[4] = 0xF1;
    b[5] = 2;
    print_check(rt, "kind 2, count 369", 0, whole(), &b[..156])
}

// Numbers of one byte and of several, and those that are malformed.
fn print_numbers(rt: &impl Print) -> io::Result<()> {
    print_number(rt, "00", b"\x00")?;
    print_number(rt, "7f", b"\x7F")?;
    print_number(rt, "80 01", b"\x80\x01")?;
    print_number(rt, "ff ff ff ff 0f", b"\xFF\xFF\xFF\xFF\x0F")?;
    print_number(rt, "ff ff ff ff 10", b"\xFF\xFF\xFF\xFF\x10")?;
    print_number(rt, "80 00", b"\x80\x00")?;
    print_number(rt, "80", b"\x80")
}

// Steps by themselves, for the XC3S50 and for a device that names no part.
fn print_steps(rt: &impl Print) -> io::Result<()> {
    let mut b = [0u8; 154];
    b[3] = 1;
    b[5] = 1;
    print_step(rt, "step of kind 1", 0, &b)?;
    print_step(rt, "step of kind 1, device 8", 8, &b)?;
    b[5] = 0;
    print_step(rt, "step of kind 1, count 0, device 8", 8, &b)?;
    b[3] = 2;
    b[4] = 1;
    print_step(rt, "step of kind 2", 0, &b)?;
    print_step(rt, "step of kind 2, device 8", 8, &b)?;
    b[3] = 3;
    print_step(rt, "step of kind 3, device 8", 8, &b)
}

fn main(rt: HostRuntime) -> io::Result<()> {
    print_heads(&rt)?;
    print_ranges(&rt)?;
    print_counts(&rt)?;
    print_frame_writes(&rt)?;
    print_multi_frame_writes(&rt)?;
    print_numbers(&rt)?;
    print_steps(&rt)
}

// Prints 01's worked examples for the parts and the CRC, as the proved library answers them.
#![tactic(auto)]

use answers::refusal_number;
use crc16::{check_word, feed};
use parts::frame::{address_at, frame_address, frame_number};
use parts::table::{count_at, idcode_at, length_at, memory_at, part_of};
use std::io;

// A row of 01's table.
fn print_part(rt: &impl Print, device: u32) -> io::Result<()> {
    match part_of(device) {
        Ok(_) => {
            let idcode = idcode_at(device);
            let words = length_at(device);
            let frames = count_at(device);
            let bytes = memory_at(device);
            println!(rt;
                "device {device} idcode {idcode:08x} words {words} frames {frames} bytes {bytes}"
            )
        }
        Err(refusal) => {
            let n = refusal_number(refusal);
            println!(rt;
                "device {device} idcode refused {n} words refused {n} frames refused {n} bytes refused {n}"
            )
        }
    }
}

// The number that an address gives.
fn print_number(rt: &impl Print, device: u32, address: u32) -> io::Result<()> {
    match frame_number(device, address) {
        Ok(Some(number)) => println!(rt; "{number}"),
        Ok(None) => println!(rt; "none"),
        Err(refusal) => println!(rt; "refused {}", refusal_number(refusal)),
    }
}

// A frame number, its address, and the number that the address gives.
fn print_frame(rt: &impl Print, device: u32, number: u32) -> io::Result<()> {
    match frame_address(device, number) {
        Ok(address) => {
            print!(rt; "device {device} frame {number} address {address:08x} frame ")?;
            print_number(rt, device, address_at(device, number))
        }
        Err(refused) => {
            println!(rt;
                "device {device} frame {number} address refused {}",
                refusal_number(refused.refusal)
            )
        }
    }
}

// A CRC value, its check word, and the register after that word is written to CRC.
fn print_check(rt: &impl Print, crc: u32) -> io::Result<()> {
    let word = check_word(crc);
    let after = feed(crc, 0, word);
    println!(rt; "crc {crc:08x} check word {word:08x} crc {after:08x}")
}

fn print_parts(rt: &impl Print) -> io::Result<()> {
    for device in 0..=8 {
        print_part(rt, device)?;
    }
    Ok(())
}

// 01's ten frames of the XC3S400, and the refusals around them.
fn print_frames(rt: &impl Print) -> io::Result<()> {
    for number in [0, 3, 6, 8, 139, 176, 576, 577, 579, 766, 767] {
        print_frame(rt, 2, number)?;
    }
    print_frame(rt, 8, 0)
}

// 01's CRC example, and the check words of other values.
fn print_checks(rt: &impl Print) -> io::Result<()> {
    for crc in [feed(0, 0, 0x80000000), 0, 1, 0x8000, 0xFFFF, 0x12345678] {
        print_check(rt, crc)?;
    }
    Ok(())
}

fn main(rt: HostRuntime) -> io::Result<()> {
    print_parts(&rt)?;
    print_frames(&rt)?;
    print_checks(&rt)
}

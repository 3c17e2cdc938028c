// Loads standard input into a freshly powered XC3S50 and prints what came of it, in 01's four lines.
#![tactic(auto)]

use answers::load_number;
use config::Phase;
use loader::Loaded;
use record::Record;
use std::io;
use std::io::Read;

// How many pieces are read at most: far beyond any stream, since a loop must end.
const PIECES: u64 = 4294967296;

// The most bytes that one read takes.
const PIECE: usize = 65536;

fn print_phase(rt: &impl Print, phase: Phase) -> io::Result<()> {
    match phase {
        Phase::Hunting(_) => rt.write_all(b"phase hunting\n"),
        Phase::Header(_) => rt.write_all(b"phase header\n"),
        Phase::Data { .. } => rt.write_all(b"phase data\n"),
        Phase::Crc => rt.write_all(b"phase crc\n"),
        Phase::Stopped(_) => rt.write_all(b"phase stopped\n"),
    }
}

// The verdict's labels and words are fixed byte strings: 01 asks for that form.
fn print_verdict(rt: &impl Print, session: Loaded) -> io::Result<()> {
    rt.write_all(b"stop ")?;
    rt.println(load_number(session.answer))?;
    rt.write_all(b"taken ")?;
    rt.println(session.taken)?;
    print_phase(rt, session.record.phase)?;
    if session.record.control.flags.started {
        rt.write_all(b"started yes\n")
    } else {
        rt.write_all(b"started no\n")
    }
}

// The load of pieces up to the end of the input or a stop, as one load; an error is that of the read that failed.
#[tactic(auto, using(loader::specs::Laws::LoadKeeps::load_taken))]
fn load_input(input: &mut impl Read, start: Record, memory: &mut [u8]) -> io::Result<Loaded> {
    let mut session = Loaded {
        record: start,
        answer: Ok(()),
        taken: 0,
    };
    let mut buffer = [0u8; PIECE];
    for _ in 0..PIECES {
        let n = input.read(&mut buffer)?;
        if n == 0 {
            return Ok(session);
        }
        let loaded = loader::load(session.record, memory, &buffer[..n]);
        session = Loaded {
            taken: session.taken + loaded.taken,
            ..loaded
        };
        if session.answer.is_err() {
            return Ok(session);
        }
    }
    Ok(session)
}

fn main(rt: HostRuntime) -> io::Result<()> {
    let mut memory = [0u8; 54464];
    let on = record::power_on(0, &mut memory);
    match load_input(&mut rt.stdin(), on.record, &mut memory) {
        Ok(session) => print_verdict(&rt, session),
        Err(_) => rt.eprintln("load50: standard input could not be read"),
    }
}

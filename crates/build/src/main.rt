// Compiles the layout on standard input for a device and a range, which the arguments name, into the stream on standard output.
#![tactic(auto)]

mod argument; // argument.rt: the numbers of the arguments
mod error; // error.rt: why there is no stream
mod input; // input.rt: standard input into a buffer

use argument::{Request, read_arguments};
use compiler::compile;
use error::BuildError;
use input::read_input;
use std::env::Env;
use std::io;
use std::io::Read;

// Every layout that writes no frame of a part twice fits, and its stream: of the XC3S5000 at most 1,664,796 and 3,368,788 bytes. Both
// buffers lie on the stack, which has 8 MiB by default, a quarter of it for arguments and environment.
const LAYOUT: usize = 1700000;

const STREAM: usize = 3400000;

// One byte more, by which a longer input shows.
const ROOM: usize = LAYOUT + 1;

// Compiles a layout into an output and writes the stream.
fn write_stream(
    rt: &impl Print,
    request: Request,
    layout: &[u8],
    output: &mut [u8],
) -> Result<(), BuildError> {
    let length = compile(request.device, request.range, layout, output)?;
    rt.write_all(&output[..length as usize])
        .map_err(|_| BuildError::Output)
}

// Lends the output: each of the two buffers is in a function of its own, since a proof over both is too deep for the checker.
fn compile_layout(rt: &impl Print, request: Request, layout: &[u8]) -> Result<(), BuildError> {
    let mut output = [0u8; STREAM];
    write_stream(rt, request, layout, &mut output)
}

// Reads the layout into a buffer, compiles it and writes the stream.
fn build(
    rt: &(impl Env + Print),
    stdin: &mut impl Read,
    buffer: &mut [u8],
) -> Result<(), BuildError> {
    let request = read_arguments(rt)?;
    let n = read_input(stdin, buffer)?;
    compile_layout(rt, request, &buffer[..n])
}

fn main(rt: HostRuntime) -> io::Result<()> {
    let mut buffer = [0u8; ROOM];
    if let Err(error) = build(&rt, &mut rt.stdin(), &mut buffer) {
        return eprintln!(rt; "build: {error}");
    }
    Ok(())
}

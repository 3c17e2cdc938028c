// Frame numbers and frame addresses, each from the other. Number to address goes by subtraction over the columns: no
// division and no remainder, so that a board without a divide instruction can do it.
ghost use Rattle.std.specs.Prelude.{◌≡◌, List, ◌++◌, ◌+◌, ◌*◌, ◌<◌, ◌≤◌, get_or};
ghost use Rattle.parts.specs.Columns.{Column, run, runs, columns, run_columns};
ghost use Rattle.parts.specs.FrameAddress.{address, address_fields, address_in, number_in, frame_address, frame_number, address_at, number_refusal};
ghost use Rattle.parts.specs.Inner.ColumnRuns.{FieldsFit, resumed, in_run};

use crate::table::{TablePart, table_part};
use answers::{Refusal, Refused, answer_value, refused_number};

// The fields of a frame address.
#[derive(Clone, Copy)]
pub struct AddressFields {
    pub block: u32,
    pub major: u32,
    pub minor: u32,
}

// A run of neighbouring columns that have the same number of minors, from a major on. That its fields fit is required where it is
// needed: the definition `runs` makes runs of any numbers, so that no field can carry it.
#[derive(Clone, Copy)]
struct Run {
    block: u32,
    major: u32,
    columns: u32,
    minors: u32,
}

fn run_of(block: u32, major: u32, columns: u32, minors: u32) -> Run
    ensures { result ≡ run block major columns minors }
{
    Run {
        block,
        major,
        columns,
        minors,
    }
}

// The address with these fields.
fn address_of(block: u32, major: u32, minor: u32) -> u32
    requires { (block < 4) × (major < 256) × (minor < 256) }
    ensures { result ≡ address block major minor }
{
    block * 33554432 + major * 131072 + minor * 512
}

impl Run {
    // The columns, passed in eights, that lie whole before a number counted from the run's first frame.
    fn leap(self, number: u32) -> u32
        requires { FieldsFit self }
        ensures { (result ≤ self.columns) × (result * self.minors ≤ number) }
    {
        let stride = 8 * self.minors;
        let mut passed: u32 = 0;
        let mut i: u32 = 0;
        // a `while`: `step_by` divides, and nothing may divide on the way to an address
        while i + 8 <= self.columns {
            if number - passed < stride {
                return i;
            }
            passed += stride;
            i += 8;
        }
        i
    }

    // The address of a number, counted from the run's first frame, or the number that is left to look for past the run. Goes
    // eight columns at a time, then column by column.
    fn search(self, number: u32) -> Result<u32, u32>
        requires { FieldsFit self }
        ensures { (rest : List Column) → address_in (run_columns self ++ rest) number ≡ resumed result rest }
    {
        let passed = self.leap(number);
        let mut left = number - passed * self.minors;
        for i in passed..self.columns {
            if left < self.minors {
                return Ok(address_of(self.block, self.major + i, left));
            }
            left -= self.minors;
        }
        Err(left)
    }

    // The frame is in the run.
    #[tactic(auto, unfolding(crate::specs::Inner::ColumnRuns::in_run))]
    fn contains(self, block: u32, major: u32, minor: u32) -> bool
        requires { FieldsFit self }
        ensures { result ≡ in_run self block major minor }
    {
        self.block == block
            && self.major <= major
            && major < self.major + self.columns
            && minor < self.minors
    }
}

impl TablePart {
    // A run of the part's columns, in the order in which its frames are numbered. One at a time: an array of all six, filled before
    // the first is looked at, made the lookup of a low frame a quarter slower.
    #[tactic(auto, unfolding(crate::specs::Columns::runs))]
    fn run(self, i: u32) -> Run
        requires { i < 6 }
        ensures { result ≡ get_or (runs self.part) i (run 0 0 0 0) }
    {
        let part = self.part;
        match i {
            0 => run_of(0, 0, 1, 3),
            1 => run_of(0, 1, 1, 2),
            2 => run_of(0, 2, part.columns + 2, 19),
            3 => run_of(0, part.columns + 4, 1, 2),
            4 => run_of(1, 0, part.ram_columns, 76),
            _ => run_of(2, 0, part.ram_columns, 19),
        }
    }

    // Looks for a number run by run.
    fn address(self, number: u32) -> Result<u64, Refused>
        ensures { result ≡ address_in (columns self.part) number }
    {
        let mut left = number;
        for i in 0..6 {
            match self.run(i).search(left) {
                Ok(address) => return Ok(address as u64),
                Err(past) => left = past,
            }
        }
        Err(Refusal::OutsidePart.into())
    }

    // Looks for a frame run by run; first is the number of the run's first frame.
    fn number(self, block: u32, major: u32, minor: u32) -> Option<u32>
        ensures { result ≡ number_in (columns self.part) 0 block major minor }
    {
        let mut first: u32 = 0;
        for i in 0..6 {
            let run = self.run(i);
            if run.contains(block, major, minor) {
                return Some(first + (major - run.major) * run.minors + minor);
            }
            first += run.columns * run.minors;
        }
        None
    }
}

// The fields of a frame address; the bits outside them are ignored.
pub fn address_fields(address: u32) -> AddressFields
    ensures { result ≡ address_fields address }
{
    AddressFields {
        block: address / 33554432 % 4,
        major: address / 131072 % 256,
        minor: address / 512 % 256,
    }
}

// The frame address of a frame number: 21, then 34.
#[tactic(auto, unfolding(crate::specs::FrameAddress::address_for), using(crate::proofs::Laws::FrameNumbers::address_known))]
pub fn frame_address(device: u32, number: u32) -> Result<u64, Refused>
    ensures { result ≡ frame_address device number }
{
    let part = table_part(device)?;
    part.address(number)
}

// The frame address of a frame number, 0 where it is refused.
pub fn address_at(device: u32, number: u32) -> u32
    ensures { result ≡ address_at device number }
{
    let answer = frame_address(device, number);
    answer_value(answer) as u32
}

// The frame number of a frame address.
#[tactic(auto, unfolding(crate::specs::FrameAddress::number_for))]
pub fn frame_number(device: u32, address: u32) -> Result<Option<u32>, Refusal>
    ensures { result ≡ frame_number device address }
{
    let part = table_part(device)?;
    let at = address_fields(address);
    Ok(part.number(at.block, at.major, at.minor))
}

// The number of an answer, 0 where nothing is refused: an address of no frame is an answer.
#[tactic(auto, using(crate::specs::Inner::RefusalNumbers::number_refused))]
pub fn number_refusal(answer: Result<Option<u32>, Refusal>) -> u32
    ensures { result ≡ number_refusal answer }
{
    refused_number(answer)
}

// The table of the eight parts, and what follows from it by device number.
ghost use Rattle.std.specs.Prelude.{◌≡◌, Ok, Err, IfOk, IfErr};
ghost use Rattle.parts.specs.Table.{part_of, part_refusal, idcode_of, frame_length, frame_count, memory_length, idcode_at, length_at, count_at, memory_at};
ghost use Rattle.parts.specs.Inner.PartLimits.{Limits};

use answers::{Refusal, refused_number};

// What tells one part from another: R, C and B of 01 are rows, columns and ram_columns.
#[derive(Clone, Copy)]
pub struct Part {
    pub idcode: u32,
    pub rows: u32,
    pub columns: u32,
    pub ram_columns: u32,
}

// A part of the table: its numbers keep within the table's limits.
#[derive(Clone, Copy)]
pub(crate) struct TablePart {
    pub(crate) part: Part,
    ghost limits: { Limits part },
}

const PARTS: [Part; 8] = [
    Part {
        idcode: 0x0140D093,
        rows: 16,
        columns: 12,
        ram_columns: 1,
    },
    Part {
        idcode: 0x01414093,
        rows: 24,
        columns: 20,
        ram_columns: 2,
    },
    Part {
        idcode: 0x0141C093,
        rows: 32,
        columns: 28,
        ram_columns: 2,
    },
    Part {
        idcode: 0x11428093,
        rows: 48,
        columns: 40,
        ram_columns: 2,
    },
    Part {
        idcode: 0x01434093,
        rows: 64,
        columns: 52,
        ram_columns: 2,
    },
    Part {
        idcode: 0x01440093,
        rows: 80,
        columns: 64,
        ram_columns: 2,
    },
    Part {
        idcode: 0x01448093,
        rows: 96,
        columns: 72,
        ram_columns: 4,
    },
    Part {
        idcode: 0x01450093,
        rows: 104,
        columns: 80,
        ram_columns: 4,
    },
];

// The part of a device number.
#[tactic(auto, unfolding(crate::specs::Table::part_of, crate::specs::Table::parts))]
pub fn part_of(device: u32) -> Result<Part, Refusal>
    ensures { result ≡ part_of device }
{
    PARTS
        .get(device as usize)
        .copied()
        .ok_or(Refusal::UnknownDevice)
}

// The number of an answer, 0 where there is a part.
#[tactic(auto, using(crate::specs::Inner::RefusalNumbers::part_refused))]
pub fn part_refusal(answer: Result<Part, Refusal>) -> u32
    ensures { result ≡ part_refusal answer }
{
    refused_number(answer)
}

// The part of a device number, with what every part of the table keeps within.
#[tactic(auto, using(crate::proofs::Laws::PrintedFigures::known_limits))]
pub(crate) fn table_part(device: u32) -> Result<TablePart, Refusal>
    ensures known { IfOk result (λ known. part_of device ≡ Ok known.part) }
    ensures unknown { IfErr result (λ refusal. part_of device ≡ Err refusal) }
{
    let part = part_of(device)?;
    Ok(TablePart { part })
}

impl TablePart {
    #[tactic(auto, unfolding(crate::specs::Table::idcode_of))]
    fn idcode(self) -> u32
        ensures { result ≡ idcode_of self.part }
    {
        self.part.idcode
    }

    // The words of a frame.
    #[tactic(auto, unfolding(crate::specs::Table::frame_length))]
    fn length(self) -> u32
        ensures { result ≡ frame_length self.part }
    {
        2 * self.part.rows + 5
    }

    // The frames of the part.
    #[tactic(auto, unfolding(crate::specs::Table::frame_count))]
    fn count(self) -> u32
        ensures { result ≡ frame_count self.part }
    {
        45 + 19 * self.part.columns + 95 * self.part.ram_columns
    }

    // The bytes of all frames.
    #[tactic(auto, unfolding(crate::specs::Table::memory_length), using(crate::proofs::Laws::PrintedFigures::length_limit))]
    fn memory(self) -> u32
        ensures { result ≡ memory_length self.part }
    {
        4 * self.length() * self.count()
    }
}

// The word that an IDCODE write must hold. This and the figures below are 0 where the number names no part.
#[tactic(auto, unfolding(crate::specs::Table::figure_of))]
pub fn idcode_at(device: u32) -> u32
    ensures { result ≡ idcode_at device }
{
    table_part(device).map_or(0, TablePart::idcode)
}

// The words of a frame.
#[tactic(auto, unfolding(crate::specs::Table::figure_of))]
pub fn length_at(device: u32) -> u32
    ensures { result ≡ length_at device }
{
    table_part(device).map_or(0, TablePart::length)
}

// The frames of the part.
#[tactic(auto, unfolding(crate::specs::Table::figure_of))]
pub fn count_at(device: u32) -> u32
    ensures { result ≡ count_at device }
{
    table_part(device).map_or(0, TablePart::count)
}

// The bytes of all frames.
#[tactic(auto, unfolding(crate::specs::Table::figure_of))]
pub fn memory_at(device: u32) -> u32
    ensures { result ≡ memory_at device }
{
    table_part(device).map_or(0, TablePart::memory)
}

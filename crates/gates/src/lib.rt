// Gate tables in bytes: their limits, their directory, and one accessor for each field. No other
// file of this crate knows where a byte of a table stands.
#![tactic(auto)]

mod areas;
mod changes;
mod stages;
mod table;
mod verdicts;
mod wires;

ghost use Rattle.std.specs.Prelude.{◌+◌, ◌*◌, ◌<◌, ◌≤◌, ◌≡◌, length};
ghost use Rattle.model.specs.Image.{word16_at};
ghost use Rattle.gates_model.specs.Limits.{directory_length, input_length, flip_flop_length, gate_length, inputs_max, flip_flops_max, gates_max, wires_max, signal_length, largest_table};
ghost use Rattle.gates_model.specs.Tables.{size_kept, offsets_kept as offsets_kept_of, directory_kept as directory_kept_of};
ghost use Rattle.gates_model.specs.Rules.{DirectoryKeeps};
ghost use Rattle.gates_model.specs.Calls.{gates_check, gates_reset, gates_cycle};
ghost use Rattle.gates.specs.Records.{mark_in, flip_flop_in, gate_in, input_end, flip_flop_end, gate_end};
ghost use Rattle.gates.specs.Describes.{Describes};
ghost use Rattle.model.specs.Calls.{left_as};

use model::Answer;
use table::GateTable;

// What a table's directory says: how many records each section has, and where it begins. The
// inputs begin behind the directory.
#[derive(Clone, Copy)]
pub struct Gates {
    pub inputs: usize,
    pub flipflops: usize,
    pub gates: usize,
    pub flipflops_at: usize,
    pub gates_at: usize,
}

// The 16-bit field at a place.
fn word16(table: &[u8], at: usize) -> usize
    requires { at + 1 < length table.now }
    ensures { (result ≡ word16_at table.now at) × (result < 65536) }
{
    usize::from(u16::from_le_bytes([table[at], table[at + 1]]))
}

// The offset and the length of section k, and where it ends.
fn offset(table: &[u8], k: usize) -> usize
    requires { (directory_length ≤ length table.now) × (k < 3) }
    ensures { (result ≡ word16_at table.now (4 * k)) × (result < 65536) }
{
    word16(table, 4 * k)
}

fn size(table: &[u8], k: usize) -> usize
    requires { (directory_length ≤ length table.now) × (k < 3) }
    ensures { (result ≡ word16_at table.now (4 * k + 2)) × (result < 65536) }
{
    word16(table, 4 * k + 2)
}

fn end(table: &[u8], k: usize) -> usize
    requires { (directory_length ≤ length table.now) × (k < 3) }
    ensures { result ≡ word16_at table.now (4 * k) + word16_at table.now (4 * k + 2) }
{
    offset(table, k) + size(table, k)
}

// The sections stand one behind the other, from the directory's end to the table's.
fn offsets_kept(table: &[u8]) -> bool
    requires { directory_length ≤ length table.now }
    ensures { result ≡ offsets_kept_of table.now }
{
    (Gates::DIRECTORY_LENGTH <= table.len())
        & (offset(table, 0) == Gates::DIRECTORY_LENGTH)
        & (offset(table, 1) == end(table, 0))
        & (offset(table, 2) == end(table, 1))
        & (table.len() == end(table, 2))
}

// A section of so many bytes holds whole records, and not too many.
fn section_kept(size: usize, width: usize, most: usize) -> bool
    requires { 0 < width }
    ensures { result ≡ size_kept size width most }
{
    (size % width == 0) & (size / width <= most)
}

impl Gates {
    // The greatest count of records in each section.
    pub const INPUTS: usize = 256;

    pub const FLIPFLOPS: usize = 256;

    pub const GATES: usize = 4096;
    // The wires of the largest table.
    pub const WIRES: usize = Self::INPUTS + Self::FLIPFLOPS + Self::GATES;
    // The length of the directory and of each record, in bytes.
    pub const DIRECTORY_LENGTH: usize = 12;

    pub const INPUT_LENGTH: usize = 1;

    pub const FLIPFLOP_LENGTH: usize = 4;

    pub const GATE_LENGTH: usize = 4;
    // The length of the largest table: each section has as many records as it may have.
    pub const LARGEST: usize = Self::DIRECTORY_LENGTH
        + Self::INPUT_LENGTH * Self::INPUTS
        + Self::FLIPFLOP_LENGTH * Self::FLIPFLOPS
        + Self::GATE_LENGTH * Self::GATES;
    // The bytes that a flip-flop takes in its area: a value and a mark.
    pub const SIGNAL_LENGTH: usize = 2;

    // Each limit is the one that the meaning names.
    pub fn limits()
        ensures inputs { Gates.INPUTS ≡ inputs_max }
        ensures flipflops { Gates.FLIPFLOPS ≡ flip_flops_max }
        ensures gates { Gates.GATES ≡ gates_max }
        ensures wires { Gates.WIRES ≡ wires_max }
        ensures directory_length { Gates.DIRECTORY_LENGTH ≡ directory_length }
        ensures input_length { Gates.INPUT_LENGTH ≡ input_length }
        ensures flipflop_length { Gates.FLIPFLOP_LENGTH ≡ flip_flop_length }
        ensures gate_length { Gates.GATE_LENGTH ≡ gate_length }
        ensures largest { Gates.LARGEST ≡ largest_table }
        ensures signal_length { Gates.SIGNAL_LENGTH ≡ signal_length }
    {}

    // The mark of input i.
    pub fn mark(table: &[u8], i: usize) -> u8
        requires { input_end i ≤ length table.now }
        ensures { result ≡ mark_in table.now i }
    {
        table[Self::DIRECTORY_LENGTH + Self::INPUT_LENGTH * i]
    }

    // The fields of flip-flop i, where the flip-flops begin at a place.
    pub fn next(table: &[u8], at: usize, i: usize) -> usize
        requires { flip_flop_end at i ≤ length table.now }
        ensures { (result ≡ (flip_flop_in table.now at i).next) × (result < 65536) }
    {
        word16(table, at + Self::FLIPFLOP_LENGTH * i)
    }

    pub fn start_value(table: &[u8], at: usize, i: usize) -> u8
        requires { flip_flop_end at i ≤ length table.now }
        ensures { result ≡ (flip_flop_in table.now at i).value }
    {
        table[at + Self::FLIPFLOP_LENGTH * i + 2]
    }

    pub fn start_mark(table: &[u8], at: usize, i: usize) -> u8
        requires { flip_flop_end at i ≤ length table.now }
        ensures { result ≡ (flip_flop_in table.now at i).mark }
    {
        table[at + Self::FLIPFLOP_LENGTH * i + 3]
    }

    // The wires that gate g reads, where the gates begin at a place.
    pub fn first(table: &[u8], at: usize, g: usize) -> usize
        requires { gate_end at g ≤ length table.now }
        ensures { (result ≡ (gate_in table.now at g).first) × (result < 65536) }
    {
        word16(table, at + Self::GATE_LENGTH * g)
    }

    pub fn second(table: &[u8], at: usize, g: usize) -> usize
        requires { gate_end at g ≤ length table.now }
        ensures { (result ≡ (gate_in table.now at g).second) × (result < 65536) }
    {
        word16(table, at + Self::GATE_LENGTH * g + 2)
    }

    // Refusal 25: the directory, the counts and the section lengths.
    pub fn directory_kept(table: &[u8]) -> bool
        ensures { result ≡ directory_kept_of table.now }
    {
        if table.len() < Self::DIRECTORY_LENGTH {
            return false;
        }
        offsets_kept(table)
            & section_kept(size(table, 0), Self::INPUT_LENGTH, Self::INPUTS)
            & section_kept(size(table, 1), Self::FLIPFLOP_LENGTH, Self::FLIPFLOPS)
            & section_kept(size(table, 2), Self::GATE_LENGTH, Self::GATES)
    }

    // What a directory describes.
    pub fn read(table: &[u8]) -> Gates
        requires { DirectoryKeeps table.now }
        ensures { Describes table.now result }
    {
        Gates {
            inputs: size(table, 0) / Self::INPUT_LENGTH,
            flipflops: size(table, 1) / Self::FLIPFLOP_LENGTH,
            gates: size(table, 2) / Self::GATE_LENGTH,
            flipflops_at: offset(table, 1),
            gates_at: offset(table, 2),
        }
    }
}

// Accepts a table exactly when it keeps the rules, or refuses it with 25, or with 26 at the lowest
// wire whose record is at fault.
pub fn check(table: &[u8]) -> Answer
    ensures { result ≡ gates_check table.now }
{
    verdicts::verdict(table)
}

// Writes the start values and marks.
pub fn reset(table: &[u8], flipflops: &mut [u8]) -> Answer
    ensures { left_as result flipflops.new ≡ gates_reset table.now flipflops.old }
{
    verdicts::verdict(table)?;
    stages::reset(&GateTable::read(table), flipflops)
}

// Makes one cycle with these values of the inputs.
pub fn cycle(table: &[u8], inputs: &[u8], flipflops: &mut [u8]) -> Answer
    ensures { left_as result flipflops.new ≡ gates_cycle table.now inputs.now flipflops.old }
{
    verdicts::verdict(table)?;
    stages::cycle(&GateTable::read(table), inputs, flipflops)
}

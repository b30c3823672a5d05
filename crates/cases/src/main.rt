// Runs stored images and calls, and prints the answers and the areas.
//
// Standard input is a sequence of records. A record has a head of 9 bytes: a kind, then two numbers
// a and b, 32 bits each, little-endian. Some kinds have bytes behind the head.
//
//   0  note: a bytes of text follow, at most 200. Printed as `# text`.
//   1  image: a bytes follow, at most 25,653: one more than the longest image. Checked, and kept for
//      the calls. Printed as `check: NUMBER PLACE COUNT`.
//   2  areas: a bytes for the registers follow, at most 264, then b bytes for the targets and the
//      bindings, at most 200. Lent to the calls as they stand, with these lengths.
//   3  reset. Printed as `reset: NUMBER PLACE COUNT`, then the areas.
//   4  port write of register a, value b. Printed as `write A B: NUMBER PLACE COUNT`, then the areas.
//   5  run of a cycles. Printed as `run A: NUMBER PLACE COUNT`, then the areas.
//   6  the image is raised into an area of a bytes, at most 25,653, each of which is b % 256 before.
//      Printed as `raise A: NUMBER PLACE COUNT`, then a line `  out` with the area's bytes.
//   7  gate table: a bytes follow, at most 17,677: one more than the longest table. Checked, and kept
//      for the calls on gates. Printed as `gates check: NUMBER PLACE COUNT`.
//   8  flip-flops: a bytes follow, at most 520. Lent to the calls on gates as they stand.
//   9  reset of the flip-flops. Printed as `gates reset: NUMBER PLACE COUNT`, then a line
//      `  flipflops` with the area's bytes.
//  10  a cycle: a input bytes follow, at most 264. Printed as `gates cycle: NUMBER PLACE COUNT`, then
//      the line `  flipflops`.
//  11  journal: a bytes follow, at most 1,024. Lent to the two calls below as they stand.
//  12  journalled run of a cycles. Printed as `journal A: NUMBER PLACE COUNT`, then the areas, and a
//      line `  journal` with the journal's bytes.
//  13  step back by a cycles. Printed as `back A: NUMBER PLACE COUNT`, then the areas and the line
//      `  journal`.
//  14  the image is pruned into an area of a bytes, at most 25,653, each of which is b % 256 before.
//      Printed as `prune A: NUMBER PLACE COUNT`, then a line `  out` with the area's bytes.
//  15  the image is filed into an area of a bytes, at most 25,653, each of which is b % 256 before.
//      Printed as `file A: NUMBER PLACE COUNT`, then a line `  out` with the area's bytes.
//  16  a second image: a bytes follow, at most 25,653. The earlier of the image and of it is printed
//      as `earlier: SECOND LENGTH`, 1 where a part of the second is handed back, else 0, and the
//      length of the part.
//
// Numbers that a kind does not use are not looked at. The areas are two lines, `  registers` and
// `  targets`, each with its bytes as numbers. Before the first record that brings them, the image,
// the areas, the gate table, the flip-flops and the journal are empty. A record that is cut off, too
// long or of another kind is printed as `bad record` and is the last. So is record 65,536. Behind a
// write that failed the program writes one line to standard error, and ends.
#![tactic(auto)]

ghost use Rattle.std.specs.Prelude.{◌≡◌};
ghost use Rattle.cases.specs.Rooms.{image_room, registers_room, targets_room, table_room, flipflops_room, journal_room};

mod area_records;
mod buffer;
mod gate_records;
mod image_records;
mod journal_records;
mod output;

use buffer::Buffer;
use design::Design;
use gates::Gates;
use output::{WriteFailed, Written, print};

// The most records.
const RECORDS: u32 = 65536;
// The longest text of a note, and the lengths of the other buffers. An image and a gate table may
// have one byte too many.
const NOTE: usize = 200;

const IMAGE: usize = Design::LARGEST + 1;

const REGISTERS: usize = 264;

const TARGETS: usize = 200;

const TABLE: usize = Gates::LARGEST + 1;

const FLIPFLOPS: usize = 520;

const JOURNAL: usize = 1024;

// Each buffer has the room that its record may take. An image and a gate table that are one byte too long still
// come to the calls, which refuse them.
fn rooms()
    ensures image { IMAGE ≡ image_room }
    ensures registers { REGISTERS ≡ registers_room }
    ensures targets { TARGETS ≡ targets_room }
    ensures table { TABLE ≡ table_room }
    ensures flipflops { FLIPFLOPS ≡ flipflops_room }
    ensures journal { JOURNAL ≡ journal_room }
{}

// The head of a record.
#[derive(Clone, Copy)]
struct Head {
    kind: u8,
    a: u32,
    b: u32,
}

// What the records before one have brought.
#[derive(Drop)]
struct Stored {
    image: Buffer<IMAGE>,
    registers: Buffer<REGISTERS>,
    targets: Buffer<TARGETS>,
    table: Buffer<TABLE>,
    flipflops: Buffer<FLIPFLOPS>,
    journal: Buffer<JOURNAL>,
}

// What follows a record.
#[derive(Clone, Copy)]
enum Then {
    Record,
    End,
}

// What a record comes to.
type Step = Result<Then, WriteFailed>;

// Goes on, where all was written.
fn next(written: Written) -> Step {
    written?;
    Ok(Then::Record)
}

// The answer to a record that is not as it should be.
fn bad() -> Step {
    print(b"bad record\n")?;
    Ok(Then::End)
}

// Goes on, where a record brought all its bytes.
fn brought(all: bool) -> Step {
    if all { Ok(Then::Record) } else { bad() }
}

fn print_note(text: &[u8]) -> Written {
    print(b"# ")?;
    print(text)?;
    print(b"\n")
}

// A note.
fn note(length: usize) -> Step {
    let mut text: Buffer<NOTE> = Buffer::empty();
    if !text.read(length) {
        return bad();
    }
    next(print_note(text.lent()))
}

// Does what a record says.
fn followed(stored: &mut Stored, head: Head) -> Step {
    match head.kind {
        0 => note(head.a as usize),
        1 | 6 | 14..=16 => image_records::followed(&mut stored.image, head),
        2..=5 => area_records::followed(
            stored.image.lent(),
            &mut stored.registers,
            &mut stored.targets,
            head,
        ),
        7..=10 => gate_records::followed(&mut stored.table, &mut stored.flipflops, head),
        11..=13 => journal_records::followed(
            stored.image.lent(),
            &mut stored.registers,
            &mut stored.targets,
            &mut stored.journal,
            head,
        ),
        _ => bad(),
    }
}

// Reads a record and does what it says.
fn record(stored: &mut Stored) -> Step {
    let mut head = [0u8; 9];
    let got = io::read_full(0, &mut head);
    if got == 0 {
        return Ok(Then::End);
    }
    if got < 9 {
        return bad();
    }
    let [kind, a0, a1, a2, a3, b0, b1, b2, b3] = head;
    let a = u32::from_le_bytes([a0, a1, a2, a3]);
    let b = u32::from_le_bytes([b0, b1, b2, b3]);
    followed(stored, Head { kind, a, b })
}

// Reads the records and does what they say.
fn records() -> Written {
    let mut stored = Stored {
        image: Buffer::empty(),
        registers: Buffer::empty(),
        targets: Buffer::empty(),
        table: Buffer::empty(),
        flipflops: Buffer::empty(),
        journal: Buffer::empty(),
    };
    for _ in 0..RECORDS {
        let Then::Record = record(&mut stored)? else {
            return Ok(());
        };
    }
    Ok(())
}

fn main() {
    if let Err(WriteFailed) = records() {
        io::write_all(2, b"cases: cannot write\n");
    }
}

// The cycle lister: a cycle count of 16 bits and an image on standard input, the cycles from reset
// on standard output. Each line is written at once, so the memory does not grow with the count.
// Behind a write that failed it writes one line to standard error, and ends.
//
// No contract can speak of what the system takes. The contracts speak of what it is handed: the
// listing is a list of pieces, `print` alone hands one over, and asks that it is the next of them;
// `handed` counts them, and no other line changes it. So what stands on standard output is the
// listing, or a beginning of it where a write failed (`output-listed`). Whether a write failed is
// the system's answer, and free.
#![tactic(auto)]

ghost use Rattle.std.specs.Prelude.{◌+◌, ◌*◌, ◌<◌, ◌≡◌, length, drop};
ghost use Rattle.model.specs.Answers.{Refused};
ghost use Rattle.model.specs.Limits.{word_length, target_length};
ghost use Rattle.model.specs.Image.{word16_at};
ghost use Rattle.model.specs.Rules.{Keeps};
ghost use Rattle.model.specs.Verdict.{verdict as verdict_of};
ghost use Rattle.model.specs.Machine.{reset_areas, after_cycles};
ghost use Rattle.design.specs.Images.{design_in};
ghost use Rattle.machine.specs.Cycles.{areas_in};
ghost use Rattle.listing.specs.Lines.{RunningAtIn};
ghost use Rattle.lister.specs.Lengths.{input_length};
ghost use Rattle.lister.specs.Pieces.{Hands, Handed};
ghost use Rattle.lister.specs.Ran.{Ran};

use design::Design;
use design::image::Image;
use listing::lines::{header, next_line, refusal_line};
use listing::starts::start;
use machine::tables::Tables;
use model::Refusal;

// A cycle count, the longest image and one byte more: whatever stands behind them, an image so long
// is refused.
const INPUT: usize = Design::LARGEST + 3;
// The bytes of all registers, and of all targets and bindings.
const REGISTERS: usize = Design::WORD_LENGTH * Design::REGISTERS;

const TARGETS: usize = Design::TARGET_LENGTH * Design::STATES;

// The longest header, refusal and line of a cycle.
const HEADER: usize = 21;

const REFUSAL: usize = 30;

const LINE: usize = 1421;

// What the program reads is as long as the front that has the listing of the whole.
fn lengths()
    ensures { INPUT ≡ input_length }
{}

// Hands so many bytes to standard output: the next piece of the listing of so many cycles of an
// image. False where not all of it was written.
fn print(image: &[u8], count: u32, handed: &mut usize, text: &[u8], n: usize) -> bool
    requires { Hands image.now count handed.old text.now n }
    ensures { handed.new ≡ handed.old + 1 }
{
    *handed += 1;
    io::write_all(1, &text[..n])
}

fn print_header(image: &[u8], count: u32, handed: &mut usize) -> bool
    requires { Keeps image.now × (handed.old ≡ 0) }
    ensures { handed.new ≡ 1 }
{
    let mut out = [0u8; HEADER];
    let n = header(&mut out);
    print(image, count, handed, &out, n)
}

fn print_refusal(image: &[u8], count: u32, handed: &mut usize, refusal: Refusal, place: u32) -> bool
    requires { (verdict_of image.now ≡ Refused refusal place) × (handed.old ≡ 0) }
    ensures { handed.new ≡ 1 }
{
    let mut out = [0u8; REFUSAL];
    let n = refusal_line(&mut out, refusal, place);
    print(image, count, handed, &out, n)
}

// Runs the cycle behind those done from reset, and writes its line.
fn print_cycle(
    image: &Image,
    tables: &Tables,
    registers: &mut [u8],
    targets: &mut [u8],
    count: u32,
    handed: &mut usize,
    done: u32,
) -> bool
    requires { (done < count) × (handed.old ≡ done + 1) × RunningAtIn image.now tables.now registers.old targets.old done }
    ensures running_at { RunningAtIn image.now tables.now registers.new targets.new (done + 1) }
    ensures handed_after { handed.new ≡ handed.old + 1 }
{
    let mut out = [0u8; LINE];
    let n = next_line(
        image,
        &tables.defaults,
        &tables.scopes,
        registers,
        targets,
        done,
        &mut out,
    );
    print(image.bytes, count, handed, &out, n)
}

// Runs so many cycles from reset, and writes their lines. Stops at a line that cannot be written.
fn print_cycles(
    image: &Image,
    tables: &Tables,
    registers: &mut [u8],
    targets: &mut [u8],
    count: u32,
    handed: &mut usize,
) -> bool
    requires { (handed.old ≡ 1) × RunningAtIn image.now tables.now registers.old targets.old 0 }
    ensures { Ran (RunningAtIn image.now tables.now registers.new targets.new) count handed.new result }
{
    for i in 0..count {
        if !print_cycle(image, tables, registers, targets, count, handed, i) {
            return false;
        }
    }
    true
}

// The lines of the cycles, on areas of the right lengths.
fn list_on(
    image: &Image,
    registers: &mut [u8],
    targets: &mut [u8],
    count: u32,
    handed: &mut usize,
) -> bool
    requires { (handed.old ≡ 1) × (length registers.old ≡ word_length * image.now.design.registers) × (length targets.old ≡ target_length * image.now.design.states) × Keeps image.now.bytes.now }
    ensures { Ran (λ cycles. areas_in (design_in image.now) registers.new targets.new ≡ after_cycles (design_in image.now) cycles (reset_areas (design_in image.now))) count handed.new result }
{
    let tables = start(image, registers, targets);
    print_cycles(image, &tables, registers, targets, count, handed)
}

// The listing of an image that keeps the rules.
fn list_accepted(image: &[u8], count: u32, handed: &mut usize) -> bool
    requires { Keeps image.now × (handed.old ≡ 0) }
    ensures { Handed image.now count handed.new result }
{
    let image = Image::read(image);
    let mut registers = [0u8; REGISTERS];
    let mut targets = [0u8; TARGETS];
    let r = Design::WORD_LENGTH * image.design.registers;
    let t = Design::TARGET_LENGTH * image.design.states;
    if !print_header(image.bytes, count, handed) {
        return false;
    }
    list_on(
        &image,
        &mut registers[..r],
        &mut targets[..t],
        count,
        handed,
    )
}

// The listing of an image.
fn list(image: &[u8], count: u32, handed: &mut usize) -> bool
    requires { handed.old ≡ 0 }
    ensures { Handed image.now count handed.new result }
{
    match checker::verdict(image) {
        Ok(_) => list_accepted(image, count, handed),
        Err(why) => print_refusal(image, count, handed, why.refusal, why.place as u32),
    }
}

// A number of 16 bits.
fn word16(low: u8, high: u8) -> u32
    ensures { result ≡ low + 256 * high }
{
    u32::from(u16::from_le_bytes([low, high]))
}

// The listing of an input. One of fewer than two bytes is refused as one with the empty image is.
fn list_input(input: &[u8], handed: &mut usize) -> bool
    requires { handed.old ≡ 0 }
    ensures { Handed (drop 2 input.now) (word16_at input.now 0) handed.new result }
{
    if input.len() < 2 {
        return list(&input[..0], 0, handed);
    }
    let count = word16(input[0], input[1]);
    list(&input[2..], count, handed)
}

fn main() {
    let mut input = [0u8; INPUT];
    let got = io::read_full(0, &mut input);
    let mut handed = 0;
    if !list_input(&input[..got], &mut handed) {
        io::write_all(2, b"lister: cannot write\n");
    }
}

// What the records on images do, kinds 1, 6 and 14 to 16. `main.rt` says what they hold.
ghost use Rattle.std.specs.Prelude.{◌≡◌, length};
ghost use Rattle.model.specs.Raising.{raise as raise_of};
ghost use Rattle.pruning_model.specs.Calls.{prune as prune_of};
ghost use Rattle.filing_model.specs.Calls.{file as file_of};
ghost use Rattle.cases.specs.Leaves.{painted, second_of};

use crate::buffer::Buffer;
use crate::output::{Written, print, print_answer, print_bytes, print_number};
use crate::{Head, IMAGE, Step, bad, next};
use filing_model::Earlier;
use model::Answer;

fn check(image: &[u8]) -> Written {
    print(b"check")?;
    print_answer(calls::check(image))
}

// Prints what a call left of the area that it writes an image to.
fn print_out(name: &[u8], answer: Answer, out: &[u8]) -> Written {
    print(name)?;
    print_number(out.len() as u64)?;
    print_answer(answer)?;
    print_bytes(b"  out", out)
}

// Every byte of an area as given.
fn paint(area: &mut [u8], byte: u8)
    ensures { area.new ≡ painted byte (length area.old) }
{
    area.fill(byte);
}

fn raise(image: &[u8], out: &mut [u8], byte: u8) -> Written
    ensures { out.new ≡ (raise_of image.now (painted byte (length out.old))).lent }
{
    paint(out, byte);
    let answer = raising::raise(image, out);
    print_out(b"raise", answer, out)
}

fn prune(image: &[u8], out: &mut [u8], byte: u8) -> Written
    ensures { out.new ≡ (prune_of image.now (painted byte (length out.old))).lent }
{
    paint(out, byte);
    let answer = pruning::prune(image, out);
    print_out(b"prune", answer, out)
}

fn file(image: &[u8], out: &mut [u8], byte: u8) -> Written
    ensures { out.new ≡ (file_of image.now (painted byte (length out.old))).lent }
{
    paint(out, byte);
    let answer = filing::file(image, out);
    print_out(b"file", answer, out)
}

// An image is written to an area of a bytes, each of which is b % 256 before.
fn written(image: &[u8], head: Head) -> Step {
    let mut out = [0u8; IMAGE];
    let a = head.a as usize;
    if IMAGE < a {
        return bad();
    }
    let out = &mut out[..a];
    let byte = (head.b % 256) as u8;
    next(match head.kind {
        6 => raise(image, out, byte),
        14 => prune(image, out, byte),
        _ => file(image, out, byte),
    })
}

// 1 where the second of two images is handed back, else 0.
fn is_second(which: Earlier) -> u64
    ensures { result ≡ second_of which }
{
    match which {
        Earlier::First => 0,
        Earlier::Second => 1,
        Earlier::Neither => 0,
    }
}

// Of which image a part is handed back, and the length of the part.
fn earlier(first: &[u8], second: &[u8]) -> Written {
    let which = filing::which_earlier(first, second);
    let part = filing::earlier(first, second);
    print(b"earlier:")?;
    print_number(is_second(which))?;
    print_number(part.len() as u64)?;
    print(b"\n")
}

// The earlier of the image and of a second one of a bytes.
fn compared(image: &[u8], a: usize) -> Step {
    let mut second: Buffer<IMAGE> = Buffer::empty();
    if !second.read(a) {
        return bad();
    }
    next(earlier(image, second.lent()))
}

// Does what a record of kind 1, 6 or from 14 to 16 says.
pub fn followed(image: &mut Buffer<IMAGE>, head: Head) -> Step {
    let a = head.a as usize;
    match head.kind {
        1 => {
            if !image.read(a) {
                return bad();
            }
            next(check(image.lent()))
        }
        16 => compared(image.lent(), a),
        _ => written(image.lent(), head),
    }
}

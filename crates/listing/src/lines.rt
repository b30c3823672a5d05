// The lines, from the front of a lent buffer: each function answers the length of its line.
ghost use Rattle.std.specs.Prelude.{◌+◌, ◌*◌, ◌<◌, ◌≤◌, ◌≡◌, length, take};
ghost use Rattle.design.specs.Images.{design_in};
ghost use Rattle.model.specs.Limits.{word_length, states_max, registers_max};
ghost use Rattle.model.specs.Values.{words_of};
ghost use Rattle.model.specs.Listing.{header as header_of, line as line_of, refusal_line as refusal_line_of};
ghost use Rattle.listing.specs.Texts.{Put};
ghost use Rattle.listing.specs.Lines.{cycle_line, shown, RunningAtWith};

use crate::fields::{number_field, registers_field, walk_field};
use crate::texts::put_text;
use design::Design;
use design::image::Image;
use machine::cycle::cycle;
use model::Refusal;

// The line above the cycles.
pub fn header(out: &mut [u8]) -> usize
    requires { 21 ≤ length out.old }
    ensures put { Put out.old 0 header_of out.new result }
    ensures upper_bound { result ≤ 21 }
{
    put_text(out, 0, b"cycle;walk;registers\n")
}

// The line of a refusal.
pub fn refusal_line(out: &mut [u8], refusal: Refusal, place: u32) -> usize
    requires { 30 ≤ length out.old }
    ensures put { Put out.old 0 (refusal_line_of refusal place) out.new result }
    ensures upper_bound { result ≤ 30 }
{
    let name = put_text(out, 0, b"refused;");
    let first = number_field(out, name, u32::from(refusal), b';');
    number_field(out, first, place, b'\n')
}

// The line of a cycle: its number, its walk, of whose table so many bytes are used, and the values
// of so many registers after it. A number has at most 10 digits, and 64 items are a field's most.
fn line(
    out: &mut [u8],
    number: u32,
    walk: &[u8],
    states: usize,
    registers: &[u8],
    count: usize,
) -> usize
    requires { (1421 ≤ length out.old) × (states ≤ length walk.now) × (states ≤ states_max) × (length registers.now ≡ word_length * count) × (count ≤ registers_max) }
    ensures put { Put out.old 0 (line_of number (shown (take states walk.now) (words_of count registers.now))) out.new result }
    ensures upper_bound { result ≤ 1421 }
{
    let first = number_field(out, 0, number, b';');
    let second = walk_field(out, first, walk, states);
    registers_field(out, second, registers, count)
}

// Runs the cycle behind those done from reset, and puts its line.
pub fn next_line(
    image: &Image,
    defaults: &[u8],
    scopes: &[u8],
    registers: &mut [u8],
    targets: &mut [u8],
    done: u32,
    out: &mut [u8],
) -> usize
    requires { (1421 ≤ length out.old) × (done + 1 < 4294967296) × RunningAtWith image.now defaults.now scopes.now registers.old targets.old done }
    ensures put { Put out.old 0 (cycle_line (design_in image.now) done) out.new result }
    ensures running_at { RunningAtWith image.now defaults.now scopes.now registers.new targets.new (done + 1) }
    ensures upper_bound { result ≤ 1421 }
{
    let mut walk = [0u8; Design::STATES];
    let states = cycle(image, defaults, scopes, registers, targets, &mut walk);
    line(
        out,
        done + 1,
        &walk,
        states,
        registers,
        image.design.registers,
    )
}

// What the records on areas do, kinds 2 to 5. `main.rt` says what they hold.
ghost use Rattle.std.specs.Prelude.{◌≡◌};
ghost use Rattle.model.specs.Calls.{reset as reset_of, write_port as write_port_of, run as run_of};
ghost use Rattle.design.specs.Resets.{lends};
ghost use Rattle.cases.specs.Leaves.{after_call};

use crate::buffer::Buffer;
use crate::output::{Written, print, print_answer, print_bytes, print_number};
use crate::{Head, REGISTERS, Step, TARGETS, bad, brought, next};

pub fn print_areas(registers: &[u8], targets: &[u8]) -> Written {
    print_bytes(b"  registers", registers)?;
    print_bytes(b"  targets", targets)
}

fn reset(image: &[u8], registers: &mut [u8], targets: &mut [u8]) -> Written
    ensures { lends registers.new targets.new ≡ (reset_of image.now (lends registers.old targets.old)).lent }
{
    let answer = calls::reset(image, registers, targets);
    print(b"reset")?;
    print_answer(answer)?;
    print_areas(registers, targets)
}

fn write_port(
    image: &[u8],
    registers: &mut [u8],
    targets: &[u8],
    register: u32,
    value: u32,
) -> Written
    ensures { registers.new ≡ (write_port_of image.now registers.old register value).lent }
{
    let answer = calls::write_port(image, registers, register, value);
    print(b"write")?;
    print_number(u64::from(register))?;
    print_number(u64::from(value))?;
    print_answer(answer)?;
    print_areas(registers, targets)
}

fn run(image: &[u8], registers: &mut [u8], targets: &mut [u8], count: u32) -> Written
    ensures { lends registers.new targets.new ≡ (run_of image.now (lends registers.old targets.old) count).lent }
{
    let answer = calls::run(image, registers, targets, count);
    print(b"run")?;
    print_number(u64::from(count))?;
    print_answer(answer)?;
    print_areas(registers, targets)
}

// Makes the call of a kind from 3 to 5.
fn call(image: &[u8], registers: &mut [u8], targets: &mut [u8], head: Head) -> Written
    ensures { lends registers.new targets.new ≡ after_call head.kind head.a head.b image.now (lends registers.old targets.old) }
{
    match head.kind {
        3 => reset(image, registers, targets),
        4 => write_port(image, registers, targets, head.a, head.b),
        _ => run(image, registers, targets, head.a),
    }
}

// Areas of a and b bytes. Both lengths are judged before a byte of either is read.
fn areas(
    registers: &mut Buffer<REGISTERS>,
    targets: &mut Buffer<TARGETS>,
    a: usize,
    b: usize,
) -> Step {
    if !registers.holds(a) || !targets.holds(b) {
        return bad();
    }
    brought(registers.read(a) && targets.read(b))
}

// Does what a record of a kind from 2 to 5 says.
pub fn followed(
    image: &[u8],
    registers: &mut Buffer<REGISTERS>,
    targets: &mut Buffer<TARGETS>,
    head: Head,
) -> Step {
    if head.kind == 2 {
        return areas(registers, targets, head.a as usize, head.b as usize);
    }
    next(call(image, registers.lent_mut(), targets.lent_mut(), head))
}

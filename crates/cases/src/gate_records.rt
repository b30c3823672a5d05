// What the records on gate tables do, kinds 7 to 10. `main.rt` says what they hold.
ghost use Rattle.std.specs.Prelude.{◌≡◌};
ghost use Rattle.gates_model.specs.Calls.{gates_reset, gates_cycle};

use crate::buffer::Buffer;
use crate::output::{Written, print, print_answer, print_bytes};
use crate::{FLIPFLOPS, Head, Step, TABLE, bad, brought, next};

// The most input bytes of a cycle.
const INPUTS: usize = 264;

fn check(table: &[u8]) -> Written {
    print(b"gates check")?;
    print_answer(gates::check(table))
}

fn reset(table: &[u8], flipflops: &mut [u8]) -> Written
    ensures { flipflops.new ≡ (gates_reset table.now flipflops.old).lent }
{
    let answer = gates::reset(table, flipflops);
    print(b"gates reset")?;
    print_answer(answer)?;
    print_bytes(b"  flipflops", flipflops)
}

fn cycle(table: &[u8], inputs: &[u8], flipflops: &mut [u8]) -> Written
    ensures { flipflops.new ≡ (gates_cycle table.now inputs.now flipflops.old).lent }
{
    let answer = gates::cycle(table, inputs, flipflops);
    print(b"gates cycle")?;
    print_answer(answer)?;
    print_bytes(b"  flipflops", flipflops)
}

// A cycle with a input bytes.
fn cycle_read(table: &[u8], flipflops: &mut [u8], a: usize) -> Step {
    let mut inputs: Buffer<INPUTS> = Buffer::empty();
    if !inputs.read(a) {
        return bad();
    }
    next(cycle(table, inputs.lent(), flipflops))
}

// Does what a record of a kind from 7 to 10 says.
pub fn followed(table: &mut Buffer<TABLE>, flipflops: &mut Buffer<FLIPFLOPS>, head: Head) -> Step {
    let a = head.a as usize;
    match head.kind {
        7 => {
            if !table.read(a) {
                return bad();
            }
            next(check(table.lent()))
        }
        8 => brought(flipflops.read(a)),
        9 => next(reset(table.lent(), flipflops.lent_mut())),
        _ => cycle_read(table.lent(), flipflops.lent_mut(), a),
    }
}

// What a command does to the registers, and what it comes to, by recursion over parts.
ghost use Rattle.std.specs.Prelude.{◌≡◌, ℕ, List, length, if◌then◌else◌, nat_eq};
ghost use Rattle.model.specs.Trees.{cmd_of};
ghost use Rattle.model.specs.Bindings.{cmd_with};
ghost use Rattle.model.specs.Machine.{exec};
ghost use Rattle.design.specs.Images.{design_in};
ghost use Rattle.machine_commands.specs.Executions.{TransferringIn, PerformingIn, bound_of, executed_as, values_in};

use crate::evaluate::{evaluate, item_named, named};
use design::image::Image;
use design::widths::cut;
use design::words::put_word;
use model::{Ending, Outcome};

// An outcome, made anew from its parts. One that is answered as it came from a call is copied whole, behind a
// store of its first byte, which stalls.
fn anew(outcome: Outcome) -> Outcome
    ensures { result ≡ outcome }
{
    let Outcome::Transferred(ending) = outcome else {
        return Outcome::Continued;
    };
    match ending {
        Ending::Goto(t, a, b) => Outcome::Transferred(Ending::Goto(t, a, b)),
        Ending::Fall => Outcome::Transferred(Ending::Fall),
    }
}

// What a fall or a goto comes to.
fn ending(image: &Image, bound: usize, n: usize) -> Outcome
    requires { TransferringIn image.now n }
    ensures { (values : List ℕ) → executed_as values result ≡ exec (design_in image.now).registers values (cmd_with (bound_of bound) (cmd_of (design_in image.now) n)) }
{
    match image.command_kind(n) {
        3 => Outcome::Transferred(Ending::Fall),
        _ => {
            let t = image.command_item(n);
            let a = named(bound, image.command_a(n));
            let b = named(bound, image.command_b(n));
            Outcome::Transferred(Ending::Goto(t, a, b))
        }
    }
}

// The part of an if that is taken by a value.
fn chosen(v: u32, b: usize, c: usize) -> usize
    ensures { result ≡ (if nat_eq v 0 then c else b) }
{
    if v == 0 {
        return c;
    }
    b
}

// Command n runs: the registers are what it leaves, and the answer is what it came to. A fall or a goto
// that comes last costs no call.
pub fn execute(image: &Image, registers: &mut [u8], bound: usize, n: usize) -> Outcome
    requires { PerformingIn image.now registers.old bound n }
    ensures { (executed_as (values_in (design_in image.now) registers.new) result ≡ exec (design_in image.now).registers (values_in (design_in image.now) registers.old) (cmd_with (bound_of bound) (cmd_of (design_in image.now) n))) × (length registers.new ≡ length registers.old) }
{
    match image.command_kind(n) {
        1 => {
            let r = item_named(image.bytes, image.design.commands_at, bound, n);
            let v = evaluate(image, registers, bound, image.command_a(n));
            let width = image.register_width(r);
            put_word(registers, r, cut(v, width));
            Outcome::Continued
        }
        2 => {
            let a = image.command_a(n);
            let b = image.command_b(n);
            let first = execute(image, registers, bound, a);
            let Outcome::Continued = first else {
                return anew(first);
            };
            match image.command_kind(b) {
                3..=4 => ending(image, bound, b),
                _ => {
                    let second = execute(image, registers, bound, b);
                    anew(second)
                }
            }
        }
        3..=4 => ending(image, bound, n),
        5 => {
            let b = image.command_b(n);
            let c = image.command_c(n);
            let v = evaluate(image, registers, bound, image.command_a(n));
            let part = chosen(v, b, c);
            match image.command_kind(part) {
                3..=4 => ending(image, bound, part),
                _ => {
                    let taken = execute(image, registers, bound, part);
                    anew(taken)
                }
            }
        }
        _ => Outcome::Continued,
    }
}

// The calls on slices, with answers as enums. Each makes the image checks first, and makes them once.
#![tactic(auto)]

pub mod areas;
mod ports;
mod resets;
pub mod runs;

ghost use Rattle.std.specs.Prelude.{◌≡◌};
ghost use Rattle.model.specs.Calls.{check as check_of, registers_length as registers_length_of, targets_length as targets_length_of, reset as reset_of, write_port as write_port_of, run as run_of, left_as};
ghost use Rattle.design.specs.Resets.{lends};

use model::Answer;

// Accepts an image exactly when it keeps the rules, or refuses it with the first number that applies, in the
// order of the checks (1 to 8, 16, 19, 9, then 10 to 12 as the bodies are read), and its place.
pub fn check(image: &[u8]) -> Answer
    ensures { result ≡ check_of image.now }
{
    checker::verdict(image)
}

// The length in bytes of the register area that an image asks for.
pub fn registers_length(image: &[u8]) -> Answer
    ensures { result ≡ registers_length_of image.now }
{
    checker::verdict(image)?;
    areas::registers_length(image)
}

// The length in bytes of the area of targets and bindings that an image asks for.
pub fn targets_length(image: &[u8]) -> Answer
    ensures { result ≡ targets_length_of image.now }
{
    checker::verdict(image)?;
    areas::targets_length(image)
}

// Writes the reset values and the default targets, and clears the bindings behind them.
pub fn reset(image: &[u8], registers: &mut [u8], targets: &mut [u8]) -> Answer
    ensures { left_as result (lends registers.new targets.new) ≡ reset_of image.now (lends registers.old targets.old) }
{
    checker::verdict(image)?;
    resets::reset(image, registers, targets)
}

// Sets a register that is a port to a value.
pub fn write_port(image: &[u8], registers: &mut [u8], register: u32, value: u32) -> Answer
    ensures { left_as result registers.new ≡ write_port_of image.now registers.old register value }
{
    checker::verdict(image)?;
    ports::write_port(image, registers, register, value)
}

// Runs so many cycles.
pub fn run(image: &[u8], registers: &mut [u8], targets: &mut [u8], count: u32) -> Answer
    ensures { left_as result (lends registers.new targets.new) ≡ run_of image.now (lends registers.old targets.old) count }
{
    checker::verdict(image)?;
    runs::run(image, registers, targets, count)
}

// A run on sound areas.
ghost use Rattle.std.specs.Prelude.{◌≡◌, leb};
ghost use Rattle.design.specs.Images.{design_in};
ghost use Rattle.model.specs.Limits.{cycles_max};
ghost use Rattle.design.specs.Resets.{lends};
ghost use Rattle.machine.specs.Cycles.{RunningWith};
ghost use Rattle.running.specs.Stages.{run_sound as run_sound_of};
ghost use Rattle.model.specs.Calls.{left_as};

use design::image::Image;
use machine::cycle::cycles;
use model::{Answer, Refusal};

// The most cycles of a run.
const MOST_CYCLES: u32 = 1000000;

// A run of so many cycles is short enough.
pub fn count_kept(count: u32) -> bool
    ensures { result ≡ leb count cycles_max }
{
    count <= MOST_CYCLES
}

// A run on sound areas.
pub fn run_sound(
    image: &Image,
    defaults: &[u8],
    scopes: &[u8],
    registers: &mut [u8],
    targets: &mut [u8],
    count: u32,
) -> Answer
    requires { RunningWith image.now defaults.now scopes.now registers.old targets.old }
    ensures { left_as result (lends registers.new targets.new) ≡ run_sound_of (design_in image.now) (lends registers.old targets.old) count }
{
    if !count_kept(count) {
        return Err(Refusal::CycleCount.at(0));
    }
    cycles(image, defaults, scopes, registers, targets, count);
    Ok(count as usize)
}

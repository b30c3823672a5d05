// A cycle along the targets, and runs of cycles.
ghost use Rattle.std.specs.Prelude.{◌*◌, ◌<◌, ◌≤◌, ◌≡◌, length};
ghost use Rattle.model.specs.Limits.{target_length};
ghost use Rattle.model.specs.Bindings.{body_with};
ghost use Rattle.model.specs.Machine.{exec, cycle as cycle_of, after_cycles};
ghost use Rattle.model.specs.Calls.{bindings_in};
ghost use Rattle.design.specs.Images.{design_in};
ghost use Rattle.design.specs.Kept.{StatesKept};
ghost use Rattle.design.specs.Resets.{Defaults};
ghost use Rattle.machine_commands.specs.Executions.{executed_as, values_in};
ghost use Rattle.machine.specs.Bindings.{ArgumentsFitIn, Pointed, Gone};
ghost use Rattle.machine.specs.Cycles.{RunningWith, EnteredIn, EndsIn, Cycled, areas_in};

use crate::bindings::{bind, bound_to};
use crate::targets::go_to;
use design::Design;
use design::image::Image;
use machine_commands::execute::execute;
use model::{Ending, Outcome};

// The command of state s runs, with the registers bound to the parameters in its scope.
fn body(image: &Image, scopes: &[u8], registers: &mut [u8], area: &[u8], s: usize) -> Outcome
    requires { EnteredIn image.now scopes.now registers.old area.now s }
    ensures result_after { (executed_as (values_in (design_in image.now) registers.new) result ≡ exec (design_in image.now).registers (values_in (design_in image.now) registers.old) (body_with (design_in image.now) (bindings_in (design_in image.now) area.now) s)) × (length registers.new ≡ length registers.old) }
    ensures ends { EndsIn image.now result }
{
    let command = image.state_command(s);
    let bound = bound_to(scopes, image.design.states, area, s);
    execute(image, registers, bound, command)
}

// The targets of a goto to t. They stand in front, and the bindings behind them stay.
fn point(image: &Image, defaults: &[u8], area: &mut [u8], t: usize)
    requires { StatesKept (design_in image.now) × Defaults (design_in image.now) defaults.now × (length area.old ≡ target_length * image.now.design.states) × (t < image.now.design.states) }
    ensures { Pointed (design_in image.now) t area.old area.new }
{
    go_to(image, defaults, &mut area[..image.design.states], t);
}

// A goto to t, with registers a and b for its arguments.
fn transfer(image: &Image, defaults: &[u8], area: &mut [u8], t: usize, a: usize, b: usize)
    requires { StatesKept (design_in image.now) × Defaults (design_in image.now) defaults.now × (length area.old ≡ target_length * image.now.design.states) × (t < image.now.design.states) × ArgumentsFitIn image.now t a b }
    ensures { Gone (design_in image.now) t a b area.old area.new }
{
    point(image, defaults, area, t);
    bind(image, area, t, a, b);
}

// One cycle. The walk is written to the front of its table, and the answer is its length.
pub fn cycle(
    image: &Image,
    defaults: &[u8],
    scopes: &[u8],
    registers: &mut [u8],
    area: &mut [u8],
    walk: &mut [u8],
) -> usize
    requires { RunningWith image.now defaults.now scopes.now registers.old area.old × (image.now.design.states ≤ length walk.old) }
    ensures cycled { Cycled (cycle_of (design_in image.now) (areas_in (design_in image.now) registers.old area.old)) (areas_in (design_in image.now) registers.new area.new) walk.old walk.new result }
    ensures running { RunningWith image.now defaults.now scopes.now registers.new area.new }
{
    let mut s = 0;
    for n in 0..image.design.states {
        walk[n] = s as u8;
        let outcome = body(image, scopes, registers, area, s);
        let Outcome::Transferred(ending) = outcome else {
            return n + 1;
        };
        if let Ending::Goto(t, a, b) = ending {
            transfer(image, defaults, area, t, a, b);
            return n + 1;
        }
        s = usize::from(area[s]);
    }
    image.design.states
}

// So many cycles.
pub fn cycles(
    image: &Image,
    defaults: &[u8],
    scopes: &[u8],
    registers: &mut [u8],
    area: &mut [u8],
    count: u32,
)
    requires { RunningWith image.now defaults.now scopes.now registers.old area.old }
    ensures area_after { areas_in (design_in image.now) registers.new area.new ≡ after_cycles (design_in image.now) count (areas_in (design_in image.now) registers.old area.old) }
    ensures running { RunningWith image.now defaults.now scopes.now registers.new area.new }
{
    let mut walk = [0u8; Design::STATES];
    for i in 0..count {
        cycle(image, defaults, scopes, registers, area, &mut walk);
    }
}

// The replay step, on plain numbers: the cycles before a record, and the record; and the end of a replay.
ghost use Rattle.std.specs.Prelude.{◌-◌, ◌≡◌};
ghost use Rattle.model.specs.Image.{design_of};
ghost use Rattle.model.specs.Machine.{after_cycles};
ghost use Rattle.model.specs.Calls.{leaves, areas_of, lent_of, left_as};
ghost use Rattle.design.specs.Resets.{lends};
ghost use Rattle.machine.specs.Cycles.{Running, areas_in};
ghost use Rattle.replay_steps.specs.Judging.{answer_of};
ghost use Rattle.replay_steps.specs.Replaying.{stepped, Stepping, Finishing};

use crate::judging::{Judging, answer};
use crate::preparing::Prepared;
use design::image::Image;
use design::words::put_word;
use machine::cycle::cycles;
use model::Answer;

// So many cycles with the tables of a replay.
fn run(image: &[u8], prepared: Prepared, registers: &mut [u8], targets: &mut [u8], count: u32)
    requires { Running image.now prepared.design prepared.tables.defaults prepared.tables.scopes registers.old targets.old }
    ensures targets_after { areas_in (design_of image.now) registers.new targets.new ≡ after_cycles (design_of image.now) count (areas_in (design_of image.now) registers.old targets.old) }
    ensures running { Running image.now prepared.design prepared.tables.defaults prepared.tables.scopes registers.new targets.new }
{
    let image = Image {
        bytes: image,
        design: prepared.design,
    };
    cycles(
        &image,
        &prepared.tables.defaults,
        &prepared.tables.scopes,
        registers,
        targets,
        count,
    );
}

// From as many cycles as are done to the cycle of a record, and then its value for its port.
pub fn replay_step(
    image: &[u8],
    prepared: Prepared,
    registers: &mut [u8],
    targets: &mut [u8],
    done: u32,
    cycle: u32,
    register: u32,
    value: u32,
) -> u32
    requires { Stepping image.now prepared registers.old targets.old done cycle register value }
    ensures { (result ≡ cycle) × (areas_in (design_of image.now) registers.new targets.new ≡ stepped (design_of image.now) (cycle - done) register value (areas_in (design_of image.now) registers.old targets.old)) × Running image.now prepared.design prepared.tables.defaults prepared.tables.scopes registers.new targets.new }
{
    run(image, prepared, registers, targets, cycle - done);
    put_word(registers, register as usize, value);
    cycle
}

// The cycles that are left, where the replay is accepted.
pub fn finish(
    image: &[u8],
    prepared: Prepared,
    registers: &mut [u8],
    targets: &mut [u8],
    judged: Judging,
    done: u32,
) -> Answer
    requires { Finishing image.now prepared judged registers.old targets.old done }
    ensures { left_as result (lends registers.new targets.new) ≡ leaves (answer_of prepared judged) (lends registers.old targets.old) (lent_of (after_cycles (design_of image.now) (prepared.count - done) (areas_of (design_of image.now) (lends registers.old targets.old)))) }
{
    let superseded = answer(prepared, judged)?;
    run(image, prepared, registers, targets, prepared.count - done);
    Ok(superseded)
}

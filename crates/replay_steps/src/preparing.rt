// All that a replay judges before its trace, and the tables that it needs beside the image, made once.
ghost use Rattle.std.specs.Prelude.{◌*◌, ◌<◌, ◌≤◌, ◌≡◌, length};
ghost use Rattle.model.specs.Limits.{word_length, target_length};
ghost use Rattle.model.specs.Indices.{filled_to};
ghost use Rattle.model.specs.Rules.{Keeps};
ghost use Rattle.design.specs.Images.{design_in};
ghost use Rattle.design.specs.Resets.{lends};
ghost use Rattle.replay_steps.specs.Preparing.{largest_of, refused_with, Preparing, PreparingOn};

use calls::areas::areas_kept;
use design::Design;
use design::image::Image;
use design::scopes::SCOPES;
use machine::tables::Tables;
use model::{Answer, Refusal, RefusedAt};
use running::runs::count_kept;
use running::soundness::judge;

// The answer so far, the count of cycles, and where all is accepted the tables of a run, and of each port
// the largest value, 0 where no port is.
#[derive(Clone, Copy)]
pub struct Prepared {
    pub answer: Answer,
    pub count: u32,
    pub design: Design,
    pub tables: Tables,
    pub largest: [u32; Design::REGISTERS],
}

// A replay that is refused before its trace is read.
fn refused(why: RefusedAt, count: u32) -> Prepared
    ensures { result ≡ refused_with why.refusal why.place count }
{
    Prepared {
        answer: Err(why),
        count,
        design: Design {
            labels: 0,
            registers: 0,
            states: 0,
            commands: 0,
            expressions: 0,
            registers_at: 0,
            states_at: 0,
            commands_at: 0,
            expressions_at: 0,
        },
        tables: Tables {
            defaults: [0u8; Design::STATES],
            scopes: [0u8; SCOPES],
        },
        largest: [0u32; Design::REGISTERS],
    }
}

// The largest value of port r, or 0 where no port is.
fn largest_value(image: &Image, r: usize) -> u32
    requires { Keeps image.now.bytes.now × (r < image.now.design.registers) }
    ensures { result ≡ largest_of (design_in image.now) r }
{
    if image.register_kind(r) != 1 {
        return 0;
    }
    let width = image.register_width(r);
    let largest: usize = (1 << width) - 1;
    largest as u32
}

// The same of every register.
fn largest_values(image: &Image, largest: &mut [u32])
    requires { Keeps image.now.bytes.now × (image.now.design.registers ≤ length largest.old) }
    ensures { largest.new ≡ filled_to (largest_of (design_in image.now)) image.now.design.registers largest.old }
{
    for r in 0..image.design.registers {
        largest[r] = largest_value(image, r);
    }
}

// On areas of the right lengths.
fn prepare_on(image: &Image, registers: &[u8], targets: &[u8], count: u32) -> Prepared
    requires { Keeps image.now.bytes.now × (length registers.now ≡ word_length * image.now.design.registers) × (length targets.now ≡ target_length * image.now.design.states) }
    ensures { PreparingOn image.now.bytes.now (lends registers.now targets.now) count result }
{
    let mut prepared = Prepared {
        answer: Ok(count as usize),
        count,
        design: image.design,
        tables: Tables::of(image),
        largest: [0u32; Design::REGISTERS],
    };
    if let Err(why) = judge(image, &prepared.tables.defaults, registers, targets) {
        return refused(why, count);
    }
    if !count_kept(count) {
        return refused(Refusal::CycleCount.at(0), count);
    }
    largest_values(image, &mut prepared.largest);
    prepared
}

// On an image that keeps the rules.
fn prepare_kept(image: &[u8], registers: &[u8], targets: &[u8], count: u32) -> Prepared
    requires { Keeps image.now }
    ensures { PreparingOn image.now (lends registers.now targets.now) count result }
{
    let image = Image::read(image);
    if !areas_kept(image.design, registers.len(), targets.len()) {
        return refused(Refusal::Area.at(0), count);
    }
    prepare_on(&image, registers, targets, count)
}

pub fn prepare(image: &[u8], registers: &[u8], targets: &[u8], count: u32) -> Prepared
    ensures { Preparing image.now (lends registers.now targets.now) count result }
{
    match checker::verdict(image) {
        Err(why) => refused(why, count),
        Ok(_) => prepare_kept(image, registers, targets, count),
    }
}

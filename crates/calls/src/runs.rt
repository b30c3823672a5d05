// Run on an image that keeps the rules: all that can be done once is done before the first cycle.
ghost use Rattle.std.specs.Prelude.{◌*◌, ◌≡◌, length};
ghost use Rattle.model.specs.Limits.{word_length, target_length};
ghost use Rattle.model.specs.Image.{design_of};
ghost use Rattle.model.specs.Rules.{Keeps};
ghost use Rattle.design.specs.Images.{design_in};
ghost use Rattle.design.specs.Resets.{lends};
ghost use Rattle.machine.specs.Cycles.{TablesIn};
ghost use Rattle.calls.specs.Stages.{run_on as run_on_of};
ghost use Rattle.model.specs.Calls.{left_as};

use crate::areas::areas_kept;
use design::image::Image;
use machine::tables::Tables;
use model::{Answer, Refusal};
use running::runs::run_sound;
use running::soundness::judge;

// A run on areas of the right lengths.
fn run_on(
    image: &Image,
    tables: &Tables,
    registers: &mut [u8],
    targets: &mut [u8],
    count: u32,
) -> Answer
    requires { Keeps image.now.bytes.now × (length registers.old ≡ word_length * image.now.design.registers) × (length targets.old ≡ target_length * image.now.design.states) × TablesIn image.now tables.now }
    ensures { left_as result (lends registers.new targets.new) ≡ run_on_of (design_in image.now) (lends registers.old targets.old) count }
{
    judge(image, &tables.defaults, registers, targets)?;
    run_sound(
        image,
        &tables.defaults,
        &tables.scopes,
        registers,
        targets,
        count,
    )
}

pub fn run(image: &[u8], registers: &mut [u8], targets: &mut [u8], count: u32) -> Answer
    requires { Keeps image.now }
    ensures { left_as result (lends registers.new targets.new) ≡ run_on_of (design_of image.now) (lends registers.old targets.old) count }
{
    let image = Image::read(image);
    if !areas_kept(image.design, registers.len(), targets.len()) {
        return Err(Refusal::Area.at(0));
    }
    let tables = Tables::of(&image);
    run_on(&image, &tables, registers, targets, count)
}

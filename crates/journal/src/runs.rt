// A journalled run on an image that keeps the rules: all that can be done once is done before the first
// cycle.
ghost use Rattle.std.specs.Prelude.{◌*◌, ◌≤◌, ◌≡◌, length};
ghost use Rattle.model.specs.Limits.{cycles_max, word_length, target_length};
ghost use Rattle.model.specs.Image.{design_of};
ghost use Rattle.model.specs.Rules.{Keeps};
ghost use Rattle.design.specs.Images.{design_in};
ghost use Rattle.machine.specs.Cycles.{TablesIn, RunningIn};
ghost use Rattle.journal.specs.Stages.{lends_journal, run_journalled_on, run_journalled_sound};
ghost use Rattle.model.specs.Calls.{left_as};

use calls::areas::areas_kept;
use design::image::Image;
use journal_saving::room::has_room;
use journal_saving::saving::cycles;
use machine::tables::Tables;
use model::{Answer, Refusal};
use running::runs::count_kept;
use running::soundness::judge;

// A journalled run of a count that is kept, on sound areas.
fn run_counted(
    image: &Image,
    tables: &Tables,
    registers: &mut [u8],
    targets: &mut [u8],
    journal: &mut [u8],
    count: u32,
) -> Answer
    requires { (count ≤ cycles_max) × RunningIn image.now tables.now registers.old targets.old }
    ensures { left_as result (lends_journal registers.new targets.new journal.new) ≡ run_journalled_sound (design_in image.now) (lends_journal registers.old targets.old journal.old) count }
{
    if !has_room(image.design, journal, count) {
        return Err(Refusal::JournalArea.at(0));
    }
    cycles(
        image,
        &tables.defaults,
        &tables.scopes,
        registers,
        targets,
        journal,
        count,
    );
    Ok(count as usize)
}

// A journalled run on sound areas.
fn run_sound(
    image: &Image,
    tables: &Tables,
    registers: &mut [u8],
    targets: &mut [u8],
    journal: &mut [u8],
    count: u32,
) -> Answer
    requires { RunningIn image.now tables.now registers.old targets.old }
    ensures { left_as result (lends_journal registers.new targets.new journal.new) ≡ run_journalled_sound (design_in image.now) (lends_journal registers.old targets.old journal.old) count }
{
    if !count_kept(count) {
        return Err(Refusal::CycleCount.at(0));
    }
    run_counted(image, tables, registers, targets, journal, count)
}

// A journalled run on areas of the right lengths.
fn run_on(
    image: &Image,
    tables: &Tables,
    registers: &mut [u8],
    targets: &mut [u8],
    journal: &mut [u8],
    count: u32,
) -> Answer
    requires { Keeps image.now.bytes.now × (length registers.old ≡ word_length * image.now.design.registers) × (length targets.old ≡ target_length * image.now.design.states) × TablesIn image.now tables.now }
    ensures { left_as result (lends_journal registers.new targets.new journal.new) ≡ run_journalled_on (design_in image.now) (lends_journal registers.old targets.old journal.old) count }
{
    judge(image, &tables.defaults, registers, targets)?;
    run_sound(image, tables, registers, targets, journal, count)
}

pub fn run_journalled(
    image: &[u8],
    registers: &mut [u8],
    targets: &mut [u8],
    journal: &mut [u8],
    count: u32,
) -> Answer
    requires { Keeps image.now }
    ensures { left_as result (lends_journal registers.new targets.new journal.new) ≡ run_journalled_on (design_of image.now) (lends_journal registers.old targets.old journal.old) count }
{
    let image = Image::read(image);
    if !areas_kept(image.design, registers.len(), targets.len()) {
        return Err(Refusal::Area.at(0));
    }
    let tables = Tables::of(&image);
    run_on(&image, &tables, registers, targets, journal, count)
}

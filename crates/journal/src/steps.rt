// A step back on an image that keeps the rules. Nothing is written before all is judged.
ghost use Rattle.std.specs.Prelude.{◌+◌, ◌*◌, ◌≤◌, ◌≡◌, length, drop};
ghost use Rattle.model.specs.Limits.{word_length, target_length};
ghost use Rattle.model.specs.Image.{design_of};
ghost use Rattle.model.specs.Rules.{Keeps};
ghost use Rattle.design.specs.Images.{design_in};
ghost use Rattle.design.specs.Words.{put_word as put_word_of};
ghost use Rattle.running.specs.Stages.{sound_on};
ghost use Rattle.journal_model.specs.Journals.{count_length, saved_length, saved_of};
ghost use Rattle.journal_saving.specs.Bytes.{part_of};
ghost use Rattle.journal.specs.Returning.{Returning};
ghost use Rattle.journal.specs.Stages.{lends_journal, step_back_on};
ghost use Rattle.model.specs.Calls.{left_as};

use calls::areas::areas_kept;
use design::Design;
use design::image::Image;
use design::reset::default_targets;
use design::words::put_word;
use journal_saving::bytes::take;
use journal_saving::room::{has_room, saved_count, saved_place};
use model::{Answer, Refusal};
use running::soundness::judge;

// The saved state at a place of the journal, judged where it lies. No cycle runs, so no scopes are made.
fn judge_saved(image: &Image, journal: &[u8], at: usize) -> Answer
    requires { Keeps image.now.bytes.now × (at + saved_length (design_in image.now) ≤ length journal.now) }
    ensures { result ≡ sound_on (design_in image.now) (saved_of (design_in image.now) (drop at journal.now)) }
{
    let mut defaults = [0u8; Design::STATES];
    default_targets(image, &mut defaults);
    let behind = at + Design::WORD_LENGTH * image.design.registers;
    let end = behind + Design::TARGET_LENGTH * image.design.states;
    judge(
        image,
        &defaults,
        &journal[at..behind],
        &journal[behind..end],
    )
}

// The saved state at a place of the journal into both areas, and the count lowered.
fn restore(journal: &mut [u8], at: usize, count: u32, registers: &mut [u8], targets: &mut [u8])
    requires { (at + (length registers.old + length targets.old) ≤ length journal.old) × (count_length ≤ length journal.old) }
    ensures { (registers.new ≡ part_of at (length registers.old) journal.old) × (targets.new ≡ part_of (at + length registers.old) (length targets.old) journal.old) × (journal.new ≡ put_word_of journal.old 0 count) }
{
    let behind = at + registers.len();
    take(journal, at, registers);
    take(journal, behind, targets);
    put_word(journal, 0, count);
}

// A step back by some cycles that the journal counts.
fn step_counted(
    image: &Image,
    registers: &mut [u8],
    targets: &mut [u8],
    journal: &mut [u8],
    k: u32,
) -> Answer
    requires { Returning image.now registers.old targets.old journal.old k }
    ensures { left_as result (lends_journal registers.new targets.new journal.new) ≡ step_back_on (design_in image.now) (lends_journal registers.old targets.old journal.old) k }
{
    let count = saved_count(journal) - k;
    let at = saved_place(image.design, count);
    judge_saved(image, journal, at)?;
    restore(journal, at, count, registers, targets);
    Ok(k as usize)
}

// A step back on areas of the right lengths.
fn step_on(
    image: &Image,
    registers: &mut [u8],
    targets: &mut [u8],
    journal: &mut [u8],
    k: u32,
) -> Answer
    requires { Keeps image.now.bytes.now × (length registers.old ≡ word_length * image.now.design.registers) × (length targets.old ≡ target_length * image.now.design.states) }
    ensures { left_as result (lends_journal registers.new targets.new journal.new) ≡ step_back_on (design_in image.now) (lends_journal registers.old targets.old journal.old) k }
{
    if !has_room(image.design, journal, 0) {
        return Err(Refusal::JournalArea.at(0));
    }
    if saved_count(journal) < k {
        return Err(Refusal::StepsBack.at(0));
    }
    if k == 0 {
        return Ok(0);
    }
    step_counted(image, registers, targets, journal, k)
}

pub fn step_back(
    image: &[u8],
    registers: &mut [u8],
    targets: &mut [u8],
    journal: &mut [u8],
    k: u32,
) -> Answer
    requires { Keeps image.now }
    ensures { left_as result (lends_journal registers.new targets.new journal.new) ≡ step_back_on (design_of image.now) (lends_journal registers.old targets.old journal.old) k }
{
    let image = Image::read(image);
    if !areas_kept(image.design, registers.len(), targets.len()) {
        return Err(Refusal::Area.at(0));
    }
    step_on(&image, registers, targets, journal, k)
}

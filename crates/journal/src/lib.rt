// The calls with a journal on slices, with answers as enums. Each makes the image checks first, and makes
// them once.
#![tactic(auto)]

mod runs;
mod steps;

ghost use Rattle.std.specs.Prelude.{◌≡◌};
ghost use Rattle.journal_model.specs.Calls.{run_journalled as run_journalled_of, step_back as step_back_of};
ghost use Rattle.journal.specs.Stages.{lends_journal};
ghost use Rattle.model.specs.Calls.{left_as};

use model::Answer;

// Runs so many cycles, and saves both areas before each.
pub fn run_journalled(
    image: &[u8],
    registers: &mut [u8],
    targets: &mut [u8],
    journal: &mut [u8],
    count: u32,
) -> Answer
    ensures { left_as result (lends_journal registers.new targets.new journal.new) ≡ run_journalled_of image.now (lends_journal registers.old targets.old journal.old) count }
{
    checker::verdict(image)?;
    runs::run_journalled(image, registers, targets, journal, count)
}

// Goes back to the areas as they were saved before the k-th last cycle that the journal counts.
pub fn step_back(
    image: &[u8],
    registers: &mut [u8],
    targets: &mut [u8],
    journal: &mut [u8],
    k: u32,
) -> Answer
    ensures { left_as result (lends_journal registers.new targets.new journal.new) ≡ step_back_of image.now (lends_journal registers.old targets.old journal.old) k }
{
    checker::verdict(image)?;
    steps::step_back(image, registers, targets, journal, k)
}

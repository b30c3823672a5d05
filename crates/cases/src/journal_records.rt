// What the records on journals do, kinds 11 to 13. `main.rt` says what they hold.
ghost use Rattle.std.specs.Prelude.{◌≡◌};
ghost use Rattle.journal_model.specs.Calls.{run_journalled as run_journalled_of, step_back as step_back_of};
ghost use Rattle.journal.specs.Stages.{lends_journal};
ghost use Rattle.cases.specs.Leaves.{after_journal_call};

use crate::area_records::print_areas;
use crate::buffer::Buffer;
use crate::output::{Written, print, print_answer, print_bytes, print_number};
use crate::{Head, JOURNAL, REGISTERS, Step, TARGETS, brought, next};

fn print_all(registers: &[u8], targets: &[u8], journal: &[u8]) -> Written {
    print_areas(registers, targets)?;
    print_bytes(b"  journal", journal)
}

fn run(
    image: &[u8],
    registers: &mut [u8],
    targets: &mut [u8],
    journal: &mut [u8],
    count: u32,
) -> Written
    ensures { lends_journal registers.new targets.new journal.new ≡ (run_journalled_of image.now (lends_journal registers.old targets.old journal.old) count).lent }
{
    let answer = journal::run_journalled(image, registers, targets, journal, count);
    print(b"journal")?;
    print_number(u64::from(count))?;
    print_answer(answer)?;
    print_all(registers, targets, journal)
}

fn step_back(
    image: &[u8],
    registers: &mut [u8],
    targets: &mut [u8],
    journal: &mut [u8],
    count: u32,
) -> Written
    ensures { lends_journal registers.new targets.new journal.new ≡ (step_back_of image.now (lends_journal registers.old targets.old journal.old) count).lent }
{
    let answer = journal::step_back(image, registers, targets, journal, count);
    print(b"back")?;
    print_number(u64::from(count))?;
    print_answer(answer)?;
    print_all(registers, targets, journal)
}

// Makes the call of a kind from 12 to 13.
fn call(
    image: &[u8],
    registers: &mut [u8],
    targets: &mut [u8],
    journal: &mut [u8],
    head: Head,
) -> Written
    ensures { lends_journal registers.new targets.new journal.new ≡ after_journal_call head.kind head.a image.now (lends_journal registers.old targets.old journal.old) }
{
    match head.kind {
        12 => run(image, registers, targets, journal, head.a),
        _ => step_back(image, registers, targets, journal, head.a),
    }
}

// Does what a record of a kind from 11 to 13 says.
pub fn followed(
    image: &[u8],
    registers: &mut Buffer<REGISTERS>,
    targets: &mut Buffer<TARGETS>,
    journal: &mut Buffer<JOURNAL>,
    head: Head,
) -> Step {
    if head.kind == 11 {
        return brought(journal.read(head.a as usize));
    }
    next(call(
        image,
        registers.lent_mut(),
        targets.lent_mut(),
        journal.lent_mut(),
        head,
    ))
}

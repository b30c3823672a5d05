// The C boundary: the calls, exported on numbers and byte slices. `include/caisson.h` documents
// them for a host.
#![tactic(auto)]

ghost use Rattle.std.specs.Prelude.{◌≡◌};
ghost use Rattle.model.specs.Answers.{numbers_of};
ghost use Rattle.model.specs.Calls.{check, registers_length as registers_length_of, targets_length as targets_length_of, reset, write_port as write_port_of, run};
ghost use Rattle.model.specs.Refusals.{in_numbers as in_numbers_of};
ghost use Rattle.model.specs.Raising.{raise};
ghost use Rattle.design.specs.Resets.{lends};
ghost use Rattle.gates_model.specs.Calls.{gates_check, gates_reset, gates_cycle};
ghost use Rattle.journal_model.specs.Calls.{run_journalled as run_journalled_of, step_back as step_back_of};
ghost use Rattle.journal.specs.Stages.{lends_journal};
ghost use Rattle.replay_model.specs.Calls.{replay as replay_of};
ghost use Rattle.pruning_model.specs.Calls.{prune};
ghost use Rattle.filing_model.specs.Calls.{file, earlier, handed_back, handed_from};
ghost use Rattle.caisson.specs.Told.{told, told_left};
ghost use Rattle.caisson.specs.ToldFiling.{told_which, part_of};
ghost use Rattle.caisson.specs.Versions.{library_version, image_format};

use filing_model::Earlier;
use model::Answer;
use replay_model::TraceRecord;

// An answer as the host is given it: caisson_answer in the header.
#[repr(C)]
#[derive(Clone, Copy)]
pub struct HostAnswer {
    pub number: u32,
    pub place: usize,
    pub count: usize,
}

// An answer in numbers.
impl From<Answer> for HostAnswer {
    ghost from_gives = { λ answer numbers. told numbers ≡ numbers_of answer };

    fn from(answer: Answer) -> HostAnswer {
        match answer {
            Ok(count) => HostAnswer {
                number: 0,
                place: 0,
                count,
            },
            Err(why) => HostAnswer {
                number: u32::from(why.refusal),
                place: why.place,
                count: 0,
            },
        }
    }
}

// The version of the library: 3006000 is 3.6.0.
#[unsafe(no_mangle)]
pub extern "C" fn caisson_version() -> u32
    ensures { result ≡ library_version }
{
    3006000
}

// The format of the images that it takes.
#[unsafe(no_mangle)]
pub extern "C" fn caisson_format() -> u32
    ensures { result ≡ image_format }
{
    3
}

// The verdict on an image.
#[unsafe(no_mangle)]
pub extern "C" fn caisson_check(image: &[u8]) -> HostAnswer
    ensures { told result ≡ numbers_of (check image.now) }
{
    HostAnswer::from(calls::check(image))
}

// The length in bytes of the register area that an image asks for.
#[unsafe(no_mangle)]
pub extern "C" fn caisson_registers_length(image: &[u8]) -> HostAnswer
    ensures { told result ≡ numbers_of (registers_length_of image.now) }
{
    HostAnswer::from(calls::registers_length(image))
}

// The length in bytes of the area of targets and bindings that an image asks for.
#[unsafe(no_mangle)]
pub extern "C" fn caisson_targets_length(image: &[u8]) -> HostAnswer
    ensures { told result ≡ numbers_of (targets_length_of image.now) }
{
    HostAnswer::from(calls::targets_length(image))
}

// Reset values, default targets, and no bindings.
#[unsafe(no_mangle)]
pub extern "C" fn caisson_reset(
    image: &[u8],
    registers: &mut [u8],
    targets: &mut [u8],
) -> HostAnswer
    ensures { told_left result (lends registers.new targets.new) ≡ in_numbers_of (reset image.now (lends registers.old targets.old)) }
{
    HostAnswer::from(calls::reset(image, registers, targets))
}

// A value for a port.
#[unsafe(no_mangle)]
pub extern "C" fn caisson_write_port(
    image: &[u8],
    registers: &mut [u8],
    reg: u32,
    value: u32,
) -> HostAnswer
    ensures { told_left result registers.new ≡ in_numbers_of (write_port_of image.now registers.old reg value) }
{
    HostAnswer::from(calls::write_port(image, registers, reg, value))
}

// So many cycles.
#[unsafe(no_mangle)]
pub extern "C" fn caisson_run(
    image: &[u8],
    registers: &mut [u8],
    targets: &mut [u8],
    cycles: u32,
) -> HostAnswer
    ensures { told_left result (lends registers.new targets.new) ≡ in_numbers_of (run image.now (lends registers.old targets.old) cycles) }
{
    HostAnswer::from(calls::run(image, registers, targets, cycles))
}

// So many cycles, with both areas saved in a journal before each.
#[unsafe(no_mangle)]
pub extern "C" fn caisson_run_journalled(
    image: &[u8],
    registers: &mut [u8],
    targets: &mut [u8],
    journal: &mut [u8],
    cycles: u32,
) -> HostAnswer
    ensures { told_left result (lends_journal registers.new targets.new journal.new) ≡ in_numbers_of (run_journalled_of image.now (lends_journal registers.old targets.old journal.old) cycles) }
{
    HostAnswer::from(journal::run_journalled(image, registers, targets, journal, cycles))
}

// Back by so many cycles that a journal counts.
#[unsafe(no_mangle)]
pub extern "C" fn caisson_step_back(
    image: &[u8],
    registers: &mut [u8],
    targets: &mut [u8],
    journal: &mut [u8],
    cycles: u32,
) -> HostAnswer
    ensures { told_left result (lends_journal registers.new targets.new journal.new) ≡ in_numbers_of (step_back_of image.now (lends_journal registers.old targets.old journal.old) cycles) }
{
    HostAnswer::from(journal::step_back(image, registers, targets, journal, cycles))
}

// So many cycles, with the records of a trace applied before each.
#[unsafe(no_mangle)]
pub extern "C" fn caisson_replay(
    image: &[u8],
    registers: &mut [u8],
    targets: &mut [u8],
    trace: &[TraceRecord],
    cycles: u32,
) -> HostAnswer
    ensures { told_left result (lends registers.new targets.new) ≡ in_numbers_of (replay_of image.now (lends registers.old targets.old) trace.now cycles) }
{
    HostAnswer::from(replay::records::replay(image, registers, targets, trace, cycles))
}

// The image with the labels of its inner registers raised, into a second area.
#[unsafe(no_mangle)]
pub extern "C" fn caisson_raise(image: &[u8], out: &mut [u8]) -> HostAnswer
    ensures { told_left result out.new ≡ in_numbers_of (raise image.now out.old) }
{
    HostAnswer::from(raising::raise(image, out))
}

// The image with only what can run, over the beginning of a second area.
#[unsafe(no_mangle)]
pub extern "C" fn caisson_prune(image: &[u8], out: &mut [u8]) -> HostAnswer
    ensures { told_left result out.new ≡ in_numbers_of (prune image.now out.old) }
{
    HostAnswer::from(pruning::prune(image, out))
}

// The filing form of an image, over the beginning of a second area.
#[unsafe(no_mangle)]
pub extern "C" fn caisson_file(image: &[u8], out: &mut [u8]) -> HostAnswer
    ensures { told_left result out.new ≡ in_numbers_of (file image.now out.old) }
{
    HostAnswer::from(filing::file(image, out))
}

// A part of one of two images as the host is given it, caisson_which in the header: of the second where `second` is
// 1, else of the first, and so many of its bytes.
#[repr(C)]
#[derive(Clone, Copy)]
pub struct HostWhich {
    pub second: u32,
    pub len: usize,
}

// The earlier of two lent images as it was lent, as a part that the host lends room for; in C it is a pointer and a
// length. An exported function returns no reference.
#[unsafe(no_mangle)]
pub extern "C" fn caisson_earlier_part<'a>(first: &'a [u8], second: &'a [u8], part: &mut &'a [u8])
    ensures { (part.new.now ≡ handed_back first.now second.now (earlier first.now second.now)) × (part.new.ref_ptr ≡ handed_from first.entry.ref_ptr second.entry.ref_ptr (earlier first.now second.now)) }
{
    *part = filing::earlier(first, second);
}

// The same without pointers: which of two images is handed back, and how long a part of it.
#[unsafe(no_mangle)]
pub extern "C" fn caisson_which_earlier(first: &[u8], second: &[u8]) -> HostWhich
    ensures { told_which result ≡ part_of first.now second.now (earlier first.now second.now) }
{
    match filing::which_earlier(first, second) {
        Earlier::First => HostWhich {
            second: 0,
            len: first.len(),
        },
        Earlier::Second => HostWhich {
            second: 1,
            len: second.len(),
        },
        Earlier::Neither => HostWhich { second: 0, len: 0 },
    }
}

// The verdict on a gate table.
#[unsafe(no_mangle)]
pub extern "C" fn caisson_gates_check(table: &[u8]) -> HostAnswer
    ensures { told result ≡ numbers_of (gates_check table.now) }
{
    HostAnswer::from(gates::check(table))
}

// The start values and marks of a gate table's flip-flops.
#[unsafe(no_mangle)]
pub extern "C" fn caisson_gates_reset(table: &[u8], flipflops: &mut [u8]) -> HostAnswer
    ensures { told_left result flipflops.new ≡ in_numbers_of (gates_reset table.now flipflops.old) }
{
    HostAnswer::from(gates::reset(table, flipflops))
}

// One cycle of a gate table.
#[unsafe(no_mangle)]
pub extern "C" fn caisson_gates_cycle(
    table: &[u8],
    inputs: &[u8],
    flipflops: &mut [u8],
) -> HostAnswer
    ensures { told_left result flipflops.new ≡ in_numbers_of (gates_cycle table.now inputs.now flipflops.old) }
{
    HostAnswer::from(gates::cycle(table, inputs, flipflops))
}

// Journalled cycles: before each the bytes of both areas go behind the states saved so far. The count
// is raised once, behind the last.
ghost use Rattle.std.specs.Prelude.{◌+◌, ◌*◌, ◌≤◌, ◌≡◌, ◌++◌, length};
ghost use Rattle.design.specs.Images.{design_in};
ghost use Rattle.model.specs.Machine.{cycle as cycle_of, cycles as cycles_of, after_cycles};
ghost use Rattle.design.specs.Resets.{lends};
ghost use Rattle.machine.specs.Cycles.{RunningWith, areas_in};
ghost use Rattle.journal_model.specs.Journals.{saved_length as saved_length_of, saved_bytes, all_saved_bytes, journal_with, saved_in, saved_before};
ghost use Rattle.journal_model.specs.Rules.{RoomKeeps};
ghost use Rattle.encoding.specs.Parts.{overwritten_at};
ghost use Rattle.journal_saving.specs.Saving.{CycleSaved};

use crate::room::{saved_count, saved_length, saved_place};
use design::image::Image;
use design::words::put_word;
use encoding::parts::put;

// Both areas, registers first, from a place of the journal on.
fn save(registers: &[u8], targets: &[u8], journal: &mut [u8], at: usize)
    requires { at + (length registers.now + length targets.now) ≤ length journal.old }
    ensures { journal.new ≡ overwritten_at at (saved_bytes (lends registers.now targets.now)) journal.old }
{
    put(registers, journal, at);
    let behind = at + registers.len();
    put(targets, journal, behind);
}

// The areas are saved at a place, and then a cycle runs, as a run of one: so `cycle` has one caller, and
// plain runs keep it in their loop.
fn saved_cycle(
    image: &Image,
    defaults: &[u8],
    scopes: &[u8],
    registers: &mut [u8],
    targets: &mut [u8],
    journal: &mut [u8],
    at: usize,
)
    requires { RunningWith image.now defaults.now scopes.now registers.old targets.old × (at + saved_length_of (design_in image.now) ≤ length journal.old) }
    ensures cycle_saved { CycleSaved (cycle_of (design_in image.now) (areas_in (design_in image.now) registers.old targets.old)) (lends registers.old targets.old) at journal.old (areas_in (design_in image.now) registers.new targets.new) (lends registers.new targets.new) journal.new }
    ensures running { RunningWith image.now defaults.now scopes.now registers.new targets.new }
{
    save(registers, targets, journal, at);
    machine::cycle::cycles(image, defaults, scopes, registers, targets, 1);
}

// So many cycles, saved one behind the other from a place on.
fn saved_cycles(
    image: &Image,
    defaults: &[u8],
    scopes: &[u8],
    registers: &mut [u8],
    targets: &mut [u8],
    journal: &mut [u8],
    place: usize,
    count: u32,
)
    requires { RunningWith image.now defaults.now scopes.now registers.old targets.old × (place + saved_length_of (design_in image.now) * count ≤ length journal.old) }
    ensures targets_after { areas_in (design_in image.now) registers.new targets.new ≡ after_cycles (design_in image.now) count (areas_in (design_in image.now) registers.old targets.old) }
    ensures journal_after { journal.new ≡ overwritten_at place (all_saved_bytes (saved_before (lends registers.old targets.old) (cycles_of (design_in image.now) count (areas_in (design_in image.now) registers.old targets.old)))) journal.old }
    ensures running { RunningWith image.now defaults.now scopes.now registers.new targets.new }
{
    let each = saved_length(image.design);
    let mut at = place;
    for i in 0..count {
        saved_cycle(image, defaults, scopes, registers, targets, journal, at);
        at += each;
    }
}

// So many journalled cycles.
pub fn cycles(
    image: &Image,
    defaults: &[u8],
    scopes: &[u8],
    registers: &mut [u8],
    targets: &mut [u8],
    journal: &mut [u8],
    count: u32,
)
    requires { RoomKeeps (design_in image.now) journal.old count × RunningWith image.now defaults.now scopes.now registers.old targets.old }
    ensures targets_after { areas_in (design_in image.now) registers.new targets.new ≡ after_cycles (design_in image.now) count (areas_in (design_in image.now) registers.old targets.old) }
    ensures journal_after { journal.new ≡ journal_with (saved_in (design_in image.now) journal.old ++ saved_before (lends registers.old targets.old) (cycles_of (design_in image.now) count (areas_in (design_in image.now) registers.old targets.old))) journal.old }
    ensures running { RunningWith image.now defaults.now scopes.now registers.new targets.new }
{
    let saved = saved_count(journal);
    let raised = saved + count;
    let place = saved_place(image.design, saved);
    saved_cycles(
        image, defaults, scopes, registers, targets, journal, place, count,
    );
    put_word(journal, 0, raised);
}

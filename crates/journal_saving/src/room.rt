// The count of a journal, the length of a saved state, and room for more.
ghost use Rattle.std.specs.Prelude.{◌+◌, ◌*◌, ◌^◌, ◌<◌, ◌≤◌, ◌≡◌, length};
ghost use Rattle.model.specs.Limits.{word_length, target_length, registers_max, states_max};
ghost use Rattle.journal_model.specs.Journals.{count_length, count_in, has_room as has_room_of};

use design::Design;
use design::words::word;

// The bytes of the count.
const COUNT_LENGTH: usize = 4;

// One above the largest count.
const COUNTS: usize = 4294967296;

// How many states are saved.
pub fn saved_count(journal: &[u8]) -> u32
    requires { count_length ≤ length journal.now }
    ensures { result ≡ count_in journal.now }
{
    word(journal, 0)
}

// The bytes of a saved state.
pub fn saved_length(design: Design) -> usize
    requires { (design.registers ≤ registers_max) × (design.states ≤ states_max) }
    ensures { result ≡ word_length * design.registers + target_length * design.states }
{
    Design::WORD_LENGTH * design.registers + Design::TARGET_LENGTH * design.states
}

// Where a saved state stands.
pub fn saved_place(design: Design, saved: u32) -> usize
    requires { (design.registers ≤ registers_max) × (design.states ≤ states_max) }
    ensures { result ≡ count_length + (word_length * design.registers + target_length * design.states) * saved }
{
    COUNT_LENGTH + saved_length(design) * saved as usize
}

// So many bytes have room for so many saved states of a length.
fn room_for(each: usize, saved: usize, bytes: usize) -> bool
    requires { (each ≤ word_length * registers_max + target_length * states_max) × (saved < 2 ^ 33) }
    ensures { result ≡ has_room_of each saved bytes }
{
    (COUNT_LENGTH <= bytes) & (COUNT_LENGTH + each * saved <= bytes) & (saved < COUNTS)
}

// A journal has room for what it counts and so many cycles more.
pub fn has_room(design: Design, journal: &[u8], cycles: u32) -> bool
    requires { (design.registers ≤ registers_max) × (design.states ≤ states_max) }
    ensures { result ≡ has_room_of (word_length * design.registers + target_length * design.states) (count_in journal.now + cycles) (length journal.now) }
{
    let bytes = journal.len();
    if bytes < COUNT_LENGTH {
        return false;
    }
    let saved = saved_count(journal) as usize + cycles as usize;
    room_for(saved_length(design), saved, bytes)
}

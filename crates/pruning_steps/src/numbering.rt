// Numbers closed up.
ghost use Rattle.std.specs.Prelude.{◌+◌, ◌≤◌, ◌<◌, ◌≡◌, eqb, length};
ghost use Rattle.model.specs.Indices.{filled_to};
ghost use Rattle.model.specs.Values.{one_or_zero};
ghost use Rattle.pruning_model.specs.Pruned.{closed_up};
ghost use Rattle.pruning_steps.specs.Marks.{is_marked, Numbered};

// One number more, where the next one is marked.
fn one_more(mark: u8, next: usize) -> usize
    requires { next < 65536 }
    ensures { result ≡ next + one_or_zero (eqb mark 1) }
{
    if mark == 1 {
        return next + 1;
    }
    next
}

// The new number of each of so many numbers, and how many stay.
pub fn close_up(marks: &[u8], count: usize, numbers: &mut [u16]) -> usize
    requires { (count ≤ length marks.now) × (count ≤ length numbers.old) × (count < 65536) }
    ensures { (result ≡ closed_up (is_marked marks.now) count)
        × (numbers.new ≡ filled_to (closed_up (is_marked marks.now)) count numbers.old)
        × Numbered (is_marked marks.now) count numbers.new }
{
    let mut next = 0;
    for k in 0..count {
        numbers[k] = next as u16;
        next = one_more(marks[k], next);
    }
    next
}

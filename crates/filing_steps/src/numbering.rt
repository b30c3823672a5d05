// New numbers: the place of each node in its order.
ghost use Rattle.std.specs.Prelude.{◌≤◌, ◌<◌, ◌≡◌, length, take};
ghost use Rattle.filing_steps.specs.Tables.{EachBelow, with_places, Numbered};

use encoding::tables::new_number;

// The new number of each of the first `count` entries of an order.
pub fn number(order: &[u16], count: usize, numbers: &mut [u16])
    requires { (count ≤ length order.now) × (count < 65536) × EachBelow (length numbers.old) (take count order.now) }
    ensures { (numbers.new ≡ with_places 0 (take count order.now) numbers.old) × Numbered (take count order.now) numbers.new }
{
    for k in (0..count).rev() {
        let n = new_number(order, k);
        numbers[n] = k as u16;
    }
}

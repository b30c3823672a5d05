// Tables of new numbers.
ghost use Rattle.std.specs.Prelude.{◌<◌, ◌≡◌, length, get_or};

// The new number of k.
pub fn new_number(numbers: &[u16], k: usize) -> usize
    requires { k < length numbers.now }
    ensures { result ≡ get_or numbers.now k 0 }
{
    usize::from(numbers[k])
}

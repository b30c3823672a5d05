// Numbers in decimal, formed by dividing: there is no table of powers or of digits.
ghost use Rattle.std.specs.Prelude.{◌+◌, ◌≤◌, ◌≡◌, length};
ghost use Rattle.model.specs.Listing.{decimal};
ghost use Rattle.listing.specs.Texts.{Put};

// How many digits a number has: one, and one more each time that a tenth of it is left.
fn digits(n: u32) -> usize
    ensures { (result ≡ length (decimal n)) × (result ≤ 10) }
{
    let mut k = 1;
    let mut rest = n / 10;
    while 0 < rest {
        rest = rest / 10;
        k += 1;
    }
    k
}

// Puts a number. Its last digit comes first, at its place behind the others.
pub fn put_decimal(out: &mut [u8], at: usize, n: u32) -> usize
    requires { at + 10 ≤ length out.old }
    ensures put { Put out.old at (decimal n) out.new result }
    ensures upper_bound { result ≤ at + 10 }
{
    let count = digits(n);
    let mut rest = n;
    for k in (0..count).rev() {
        out[at + k] = (48 + rest % 10) as u8;
        rest = rest / 10;
    }
    at + count
}

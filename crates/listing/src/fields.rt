// The fields of a line, each with the byte that ends it. Within a field one space parts the items.
ghost use Rattle.std.specs.Prelude.{◌+◌, ◌*◌, ◌<◌, ◌≤◌, ◌≡◌, [], ◌∷◌, ◌++◌, length, take};
ghost use Rattle.model.specs.Limits.{word_length};
ghost use Rattle.model.specs.Values.{words_of};
ghost use Rattle.model.specs.Listing.{decimal, spaced};
ghost use Rattle.listing.specs.Texts.{Put, parted};

use crate::decimal::put_decimal;
use crate::texts::put_byte;
use design::words::word;

// Puts item i of a field.
fn put_item(out: &mut [u8], at: usize, i: usize, n: u32) -> usize
    requires { at + 11 ≤ length out.old }
    ensures put { Put out.old at (parted i n) out.new result }
    ensures upper_bound { result ≤ at + 11 }
{
    if i == 0 {
        return put_decimal(out, at, n);
    }
    let p = put_byte(out, at, b' ');
    put_decimal(out, p, n)
}

// Puts the states of a walk: so many bytes of its table.
fn put_walk(out: &mut [u8], at: usize, walk: &[u8], count: usize) -> usize
    requires { (count ≤ length walk.now) × (at + 11 * count ≤ length out.old) }
    ensures put { Put out.old at (spaced (take count walk.now)) out.new result }
    ensures upper_bound { result ≤ at + 11 * count }
{
    let mut p = at;
    for (i, &state) in walk[..count].iter().enumerate() {
        p = put_item(out, p, i, u32::from(state));
    }
    p
}

// Puts the values of so many registers.
fn put_registers(out: &mut [u8], at: usize, registers: &[u8], count: usize) -> usize
    requires { (length registers.now ≡ word_length * count) × (at + 11 * count ≤ length out.old) }
    ensures put { Put out.old at (spaced (words_of count registers.now)) out.new result }
    ensures upper_bound { result ≤ at + 11 * count }
{
    let mut p = at;
    for i in 0..count {
        let n = word(registers, i);
        p = put_item(out, p, i, n);
    }
    p
}

// A number and the byte behind it.
pub fn number_field(out: &mut [u8], at: usize, n: u32, b: u8) -> usize
    requires { at + 11 ≤ length out.old }
    ensures put { Put out.old at (decimal n ++ b ∷ []) out.new result }
    ensures upper_bound { result ≤ at + 11 }
{
    let p = put_decimal(out, at, n);
    put_byte(out, p, b)
}

// A walk and a semicolon.
pub fn walk_field(out: &mut [u8], at: usize, walk: &[u8], count: usize) -> usize
    requires { (count ≤ length walk.now) × (at + 11 * count < length out.old) }
    ensures put { Put out.old at (spaced (take count walk.now) ++ 59 ∷ []) out.new result }
    ensures upper_bound { result ≤ at + 11 * count + 1 }
{
    let p = put_walk(out, at, walk, count);
    put_byte(out, p, b';')
}

// The values of so many registers and a line feed.
pub fn registers_field(out: &mut [u8], at: usize, registers: &[u8], count: usize) -> usize
    requires { (length registers.now ≡ word_length * count) × (at + 11 * count < length out.old) }
    ensures put { Put out.old at (spaced (words_of count registers.now) ++ 10 ∷ []) out.new result }
    ensures upper_bound { result ≤ at + 11 * count + 1 }
{
    let p = put_registers(out, at, registers, count);
    put_byte(out, p, b'\n')
}

// The signed operations (02, E3), on the numbers as they are in two's complement.
ghost use Rattle.std.specs.Prelude.{◌≡◌};
ghost use Rattle.model.specs.Signed.{below_signed, shifted_right, divided_signed};

// Whether x is less than y.
pub fn signed_less(x: u32, y: u32) -> bool
    ensures { result ≡ below_signed x y }
{
    x.cast_signed() < y.cast_signed()
}

// x divided by 2 to the power of the low five bits of y, rounded down.
pub fn shift_right(x: u32, y: u32) -> u32
    ensures { result ≡ shifted_right x y }
{
    (x.cast_signed() >> (y % 32)).cast_unsigned()
}

// x divided by y, rounded toward zero. The lowest value by -1 gives 2 to the power of 31, which is its bits again.
pub fn divide(x: u32, y: u32) -> u32
    ensures { result ≡ divided_signed x y }
{
    if y == 0 {
        return 0;
    }
    x.cast_signed()
        .wrapping_div(y.cast_signed())
        .cast_unsigned()
}

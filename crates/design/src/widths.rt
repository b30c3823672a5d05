// The width of a register: what is left of a value in so many bits, and whether a value needs no more.
ghost use Rattle.std.specs.Prelude.{◌%◌, ◌^◌, ◌≤◌, ◌≡◌, ltb};
ghost use Rattle.model.specs.Limits.{width_max};

// The value modulo 2 to the power of the width.
pub fn cut(value: u32, width: usize) -> u32
    requires { width ≤ width_max }
    ensures { result ≡ value % 2 ^ width }
{
    let mask = (1 << width) - 1;
    ((value as usize) & mask) as u32
}

// The value is below 2 to the power of the width.
pub fn fits(value: u32, width: usize) -> bool
    requires { width ≤ width_max }
    ensures { result ≡ ltb value (2 ^ width) }
{
    (value as usize) >> width == 0
}

// What reset writes: the reset values of the registers, the default targets of the states, and no
// bindings.
ghost use Rattle.std.specs.Prelude.{◌*◌, ◌≤◌, ◌≡◌, length};
ghost use Rattle.model.specs.Limits.{word_length, states_max};
ghost use Rattle.model.specs.Values.{bytes_of};
ghost use Rattle.model.specs.Machine.{reset_areas};
ghost use Rattle.design.specs.Images.{design_in};
ghost use Rattle.design.specs.Kept.{StatesKept};
ghost use Rattle.design.specs.Resets.{with_defaults, Filled};

use crate::image::Image;
use crate::words::put_word;

// Every byte is 0.
pub fn clear(table: &mut [u8])
    ensures { Filled (λ k. 0) table.old (length table.old) table.new }
{
    table.fill(0);
}

// Each state's entry is its own number; the bytes behind them stay.
fn own_numbers(states: usize, table: &mut [u8])
    requires { (states ≤ length table.old) × (states ≤ states_max) }
    ensures { Filled (λ k. k) table.old states table.new }
{
    for s in 0..states {
        table[s] = s as u8;
    }
}

// Each state's entry is its default target: its lowest child, or itself where it has none. The
// lowest child comes last, and stays.
pub fn default_targets(image: &Image, table: &mut [u8])
    requires { StatesKept (design_in image.now) × (image.now.design.states ≤ length table.old) }
    ensures { table.new ≡ with_defaults (design_in image.now) table.old }
{
    own_numbers(image.design.states, table);
    for s in (1..image.design.states).rev() {
        let p = image.parent(s);
        table[p] = s as u8;
    }
}

// Every register takes its reset value.
pub fn reset_registers(image: &Image, registers: &mut [u8])
    requires { length registers.old ≡ word_length * image.now.design.registers }
    ensures { registers.new ≡ bytes_of (reset_areas (design_in image.now)).registers }
{
    for r in 0..image.design.registers {
        let v = image.register_reset(r);
        put_word(registers, r, v);
    }
}

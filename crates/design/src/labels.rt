// The labels of the registers as a table of their own.
ghost use Rattle.std.specs.Prelude.{◌≤◌, length};
ghost use Rattle.model.specs.Lattice.{register_label as register_label_of};
ghost use Rattle.design.specs.Images.{design_in};
ghost use Rattle.design.specs.Resets.{Filled};

use crate::image::Image;

// Each register's entry is its label; the bytes behind them stay.
pub fn register_labels(image: &Image, table: &mut [u8])
    requires { image.now.design.registers ≤ length table.old }
    ensures { Filled (register_label_of (design_in image.now)) table.old image.now.design.registers table.new }
{
    for r in 0..image.design.registers {
        let label = image.register_label(r);
        table[r] = label as u8;
    }
}

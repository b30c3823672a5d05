// Label rows as masks of labels.
ghost use Rattle.std.specs.Prelude.{◌/◌, ◌%◌, ◌^◌, ◌<◌, ◌≡◌, eqb};
ghost use Rattle.model.specs.Lattice.{flows_to};
ghost use Rattle.design.specs.Images.{design_in};

use crate::image::Image;

// Bit l of a row, or of the `and` of rows.
pub fn bit(row: usize, l: usize) -> bool
    requires { l < 64 }
    ensures { result ≡ eqb (row / 2 ^ l % 2) 1 }
{
    (row >> l) % 2 == 1
}

// Label i flows to label j.
pub fn flows(image: &Image, i: usize, j: usize) -> bool
    requires { (i < image.now.design.labels) × (j < image.now.design.labels) }
    ensures { result ≡ flows_to (design_in image.now).rows i j }
{
    bit(image.row(i), j)
}

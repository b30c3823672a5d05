// Refusal 3: a register by its record.
ghost use Rattle.std.specs.Prelude.{◌<◌, ◌≡◌, length};
ghost use Rattle.model.specs.Indices.{lowest_failing};
ghost use Rattle.model.specs.States.{register_kept as register_kept_of};
ghost use Rattle.design.specs.Images.{design_in};

use design::Design;
use design::image::Image;
use design::widths::fits;

// Register r has a label, a kind and a width, and its reset value fits.
fn register_kept(image: &Image, r: usize) -> bool
    requires { r < image.now.design.registers }
    ensures { result ≡ register_kept_of (design_in image.now) r }
{
    let width = image.register_width(r);
    if width < 1 {
        return false;
    }
    if Design::WIDTH < width {
        return false;
    }
    (image.register_label(r) < image.design.labels)
        & (image.register_kind(r) <= 1)
        & fits(image.register_reset(r), width)
}

// Refusal 3, at the lowest register.
pub fn registers(image: &Image) -> Option<usize>
    ensures { result ≡ lowest_failing (register_kept_of (design_in image.now)) (length (design_in image.now).registers) }
{
    (0..image.design.registers).find(|&r| !register_kept(image, r))
}

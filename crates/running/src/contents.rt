// The contents of a register area: every value is within the width of its register.
ghost use Rattle.std.specs.Prelude.{◌*◌, ◌<◌, ◌≡◌, length};
ghost use Rattle.design.specs.Images.{design_in, RecordsIn};
ghost use Rattle.model.specs.Limits.{word_length};
ghost use Rattle.model.specs.Indices.{lowest_failing};
ghost use Rattle.model.specs.Calls.{content_kept as content_kept_of};

use design::image::Image;
use design::widths::fits;
use design::words::word;

// The value of register r fits its width.
fn content_kept(image: &Image, registers: &[u8], r: usize) -> bool
    requires { RecordsIn image.now × (length registers.now ≡ word_length * image.now.design.registers) × (r < image.now.design.registers) }
    ensures { result ≡ content_kept_of (design_in image.now) registers.now r }
{
    let width = image.register_width(r);
    fits(word(registers, r), width)
}

// The lowest register that holds a value too large.
pub fn too_large(image: &Image, registers: &[u8]) -> Option<usize>
    requires { RecordsIn image.now × (length registers.now ≡ word_length * image.now.design.registers) }
    ensures { result ≡ lowest_failing (content_kept_of (design_in image.now) registers.now) (length (design_in image.now).registers) }
{
    (0..image.design.registers).find(|&r| !content_kept(image, registers, r))
}

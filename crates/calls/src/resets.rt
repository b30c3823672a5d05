// Reset on an image that keeps the rules.
ghost use Rattle.std.specs.Prelude.{◌≡◌};
ghost use Rattle.model.specs.Image.{design_of};
ghost use Rattle.model.specs.Rules.{Keeps};
ghost use Rattle.design.specs.Resets.{lends};
ghost use Rattle.calls.specs.Stages.{reset_on};
ghost use Rattle.model.specs.Calls.{left_as};

use crate::areas::areas_kept;
use design::Design;
use design::image::Image;
use model::{Answer, Refusal};

pub fn reset(image: &[u8], registers: &mut [u8], targets: &mut [u8]) -> Answer
    requires { Keeps image.now }
    ensures { left_as result (lends registers.new targets.new) ≡ reset_on (design_of image.now) (lends registers.old targets.old) }
{
    let image = Image::read(image);
    if !areas_kept(image.design, registers.len(), targets.len()) {
        return Err(Refusal::Area.at(0));
    }
    Design::reset(&image, registers, targets);
    Ok(0)
}

// What the first cycle of a listing starts from.
ghost use Rattle.std.specs.Prelude.{◌*◌, ◌≡◌, length, replicate};
ghost use Rattle.model.specs.Limits.{word_length, target_length, states_max};
ghost use Rattle.model.specs.Rules.{Keeps};
ghost use Rattle.model.specs.Machine.{reset_areas};
ghost use Rattle.model.specs.Calls.{lent_of};
ghost use Rattle.design.specs.Images.{design_in};
ghost use Rattle.design.specs.Resets.{with_defaults, lends};
ghost use Rattle.design.specs.Scopes.{scope_length, with_scopes};
ghost use Rattle.listing.specs.Lines.{RunningAtIn};

use design::Design;
use design::image::Image;
use machine::tables::Tables;

// The tables of a run, and the areas reset.
pub fn start(image: &Image, registers: &mut [u8], targets: &mut [u8]) -> Tables
    requires { Keeps image.now.bytes.now × (length registers.old ≡ word_length * image.now.design.registers) × (length targets.old ≡ target_length * image.now.design.states) }
    ensures { (result.defaults ≡ with_defaults (design_in image.now) (replicate states_max 0))
        × (result.scopes ≡ with_scopes (design_in image.now) (length (design_in image.now).states) (replicate (scope_length * states_max) 0))
        × (lends registers.new targets.new ≡ lent_of (reset_areas (design_in image.now)))
        × RunningAtIn image.now result registers.new targets.new 0 }
{
    Design::reset(image, registers, targets);
    Tables::of(image)
}

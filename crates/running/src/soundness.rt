// Whether areas of the right lengths are sound: the values, then the targets, then the bindings.
ghost use Rattle.std.specs.Prelude.{◌*◌, ◌≡◌, length};
ghost use Rattle.model.specs.Limits.{word_length, target_length};
ghost use Rattle.model.specs.Indices.{lowest_failing};
ghost use Rattle.model.specs.Rules.{Keeps};
ghost use Rattle.model.specs.Machine.{target_sound};
ghost use Rattle.model.specs.Calls.{targets_in};
ghost use Rattle.design.specs.Images.{design_in};
ghost use Rattle.design.specs.Kept.{StatesKept};
ghost use Rattle.design.specs.Resets.{Defaults, lends};
ghost use Rattle.running.specs.Stages.{sound_on};

use crate::contents::too_large;
use design::image::Image;
use machine::bindings::unbound;
use machine::targets::unsound;
use model::{Answer, Refusal, refused_at};

// The lowest state whose target is not sound. The targets stand in front in their area.
fn unsound_target(image: &Image, defaults: &[u8], area: &[u8]) -> Option<usize>
    requires { StatesKept (design_in image.now) × Defaults (design_in image.now) defaults.now × (length area.now ≡ target_length * image.now.design.states) }
    ensures { result ≡ lowest_failing (target_sound (design_in image.now) (targets_in (design_in image.now) area.now)) (length (design_in image.now).states) }
{
    unsound(image, defaults, &area[..image.design.states])
}

// Accepts areas that a run may start from.
pub fn judge(image: &Image, defaults: &[u8], registers: &[u8], targets: &[u8]) -> Answer
    requires { Keeps image.now.bytes.now × Defaults (design_in image.now) defaults.now × (length registers.now ≡ word_length * image.now.design.registers) × (length targets.now ≡ target_length * image.now.design.states) }
    ensures { result ≡ sound_on (design_in image.now) (lends registers.now targets.now) }
{
    refused_at(Refusal::Area, too_large(image, registers))?;
    refused_at(Refusal::Area, unsound_target(image, defaults, targets))?;
    refused_at(Refusal::Area, unbound(image, targets))
}

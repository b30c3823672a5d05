// "For each choice" by bounds: a label byte stands for labels between a least and a greatest one, so one
// flows to another for each choice where the greatest flows to the least, or both are one.
ghost use Rattle.std.specs.Prelude.{◌<◌, ◌≡◌};
ghost use Rattle.model.specs.Parameters.{least_label as least_label_of, most_label as most_label_of};
ghost use Rattle.design.specs.Images.{design_in};
ghost use Rattle.design.specs.Kept.{LatticeKept, StatesKept, ParametersKept};
ghost use Rattle.design.specs.Scopes.{Scopes, LabelByte};
ghost use Rattle.checker_records.specs.Bounds.{flows_for_each};

use design::Design;
use design::image::Image;
use design::rows::flows;
use design::scopes::{in_scope, lower_bound, upper_bound};

// The least label that label byte x of state s stands for.
pub fn least_label(image: &Image, scopes: &[u8], s: usize, x: usize) -> usize
    requires describes { LatticeKept (design_in image.now) × StatesKept (design_in image.now) × ParametersKept (design_in image.now) }
    requires scopes { Scopes (design_in image.now) scopes.now × (s < image.now.design.states) × LabelByte (design_in image.now) s x }
    ensures { (result ≡ least_label_of (design_in image.now) s x) × (result < image.now.design.labels) }
{
    if x < Design::PARAMETER_LABEL {
        return x;
    }
    let v = in_scope(image, scopes, s, x - Design::PARAMETER_LABEL);
    lower_bound(image, v)
}

// The greatest label that label byte x of state s stands for.
pub fn most_label(image: &Image, scopes: &[u8], s: usize, x: usize) -> usize
    requires describes { LatticeKept (design_in image.now) × StatesKept (design_in image.now) × ParametersKept (design_in image.now) }
    requires scopes { Scopes (design_in image.now) scopes.now × (s < image.now.design.states) × LabelByte (design_in image.now) s x }
    ensures { (result ≡ most_label_of (design_in image.now) s x) × (result < image.now.design.labels) }
{
    if x < Design::PARAMETER_LABEL {
        return x;
    }
    let v = in_scope(image, scopes, s, x - Design::PARAMETER_LABEL);
    upper_bound(image, v)
}

// What label byte x stands for flows to what y stands for, for each choice in scope of state s.
pub fn flows_each(image: &Image, scopes: &[u8], s: usize, x: usize, y: usize) -> bool
    requires describes { LatticeKept (design_in image.now) × StatesKept (design_in image.now) × ParametersKept (design_in image.now) }
    requires scopes { Scopes (design_in image.now) scopes.now × (s < image.now.design.states) × LabelByte (design_in image.now) s x × LabelByte (design_in image.now) s y }
    ensures { result ≡ flows_for_each (design_in image.now) s x y }
{
    if x == y {
        return true;
    }
    let from = most_label(image, scopes, s, x);
    let to = least_label(image, scopes, s, y);
    flows(image, from, to)
}

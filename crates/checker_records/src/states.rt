// Refusals 4 and 9: a state by its record, and the label of a default child.
ghost use Rattle.std.specs.Prelude.{◌+◌, ◌<◌, ◌≡◌, ◌&&◌, leb, ltb, length};
ghost use Rattle.model.specs.Limits.{parameter_label, binding_length};
ghost use Rattle.model.specs.Indices.{lowest_failing};
ghost use Rattle.model.specs.Image.{state_at};
ghost use Rattle.model.specs.States.{parent_kept as parent_kept_of, state_kept as state_kept_of};
ghost use Rattle.model.specs.Falls.{child_label_kept as child_label_kept_of};
ghost use Rattle.design.specs.Images.{design_in};
ghost use Rattle.design.specs.Kept.{LatticeKept, StatesKept, ParametersKept};
ghost use Rattle.design.specs.Resets.{Defaults};
ghost use Rattle.design.specs.Falls.{FallsTold};
ghost use Rattle.design.specs.Scopes.{Scopes};
ghost use Rattle.checker_records.specs.Bounds.{flows_for_each};

use crate::bounds::flows_each;
use design::Design;
use design::image::Image;

// A label byte that stands for the label of a parameter. Refusal 19 judges whether there is one.
fn names_parameter(label: usize) -> bool
    ensures { result ≡ (leb parameter_label label && ltb label (parameter_label + binding_length)) }
{
    (Design::PARAMETER_LABEL <= label) & (label < Design::PARAMETER_LABEL + Design::BINDING_LENGTH)
}

// State s is the root, with parent 0 and label 0, or its parent has a lower number.
fn parent_kept(image: &Image, s: usize) -> bool
    requires { s < image.now.design.states }
    ensures { result ≡ parent_kept_of (design_in image.now) s }
{
    if s == 0 {
        let label = image.state_label(s);
        return (image.parent(s) == 0) & ((label == 0) | names_parameter(label));
    }
    image.parent(s) < s
}

// State s has a parent, a label and a command.
fn state_kept(image: &Image, s: usize) -> bool
    requires { s < image.now.design.states }
    ensures { result ≡ state_kept_of (design_in image.now) s }
{
    let label = image.state_label(s);
    parent_kept(image, s)
        & ((label < image.design.labels) | names_parameter(label))
        & (image.state_command(s) < image.design.commands)
}

// Refusal 4, at the lowest state.
pub fn states(image: &Image) -> Option<usize>
    ensures { result ≡ lowest_failing (state_kept_of (design_in image.now)) (length (design_in image.now).states) }
{
    (0..image.design.states).find(|&s| !state_kept(image, s))
}

// The label of state s is at or above that of its parent for each choice.
fn label_above(image: &Image, scopes: &[u8], parent: usize, s: usize) -> bool
    requires describes { LatticeKept (design_in image.now) × StatesKept (design_in image.now) × ParametersKept (design_in image.now) }
    requires scopes { Scopes (design_in image.now) scopes.now × (s < image.now.design.states) × (0 < s) × (parent ≡ (state_at (design_in image.now) s).parent) }
    ensures { result ≡ flows_for_each (design_in image.now) s (state_at (design_in image.now) (state_at (design_in image.now) s).parent).label (state_at (design_in image.now) s).label }
{
    let from = image.state_label(parent);
    flows_each(image, scopes, s, from, image.state_label(s))
}

// The label of state s is at or above its parent's for each choice, where s is the default child of a
// state that holds a fall. The states and their parameters are kept.
fn child_label_kept(image: &Image, defaults: &[u8], falls: &[u8], scopes: &[u8], s: usize) -> bool
    requires describes { LatticeKept (design_in image.now) × StatesKept (design_in image.now) × ParametersKept (design_in image.now) × (s < image.now.design.states) }
    requires defaults { Defaults (design_in image.now) defaults.now × FallsTold (design_in image.now) falls.now × Scopes (design_in image.now) scopes.now }
    ensures { result ≡ child_label_kept_of (design_in image.now) s }
{
    if s == 0 {
        return true;
    }
    let parent = image.parent(s);
    if falls[parent] == 0 {
        return true;
    }
    if defaults[parent] != s as u8 {
        return true;
    }
    label_above(image, scopes, parent, s)
}

// Refusal 9, at the lowest state. The states and their parameters are kept: refusals 4 and 19 found
// none.
pub fn child_labels(image: &Image, defaults: &[u8], falls: &[u8], scopes: &[u8]) -> Option<usize>
    requires describes { LatticeKept (design_in image.now) × StatesKept (design_in image.now) × ParametersKept (design_in image.now) }
    requires defaults { Defaults (design_in image.now) defaults.now × FallsTold (design_in image.now) falls.now × Scopes (design_in image.now) scopes.now }
    ensures { result ≡ lowest_failing (child_label_kept_of (design_in image.now)) (length (design_in image.now).states) }
{
    (0..image.design.states).find(|&s| !child_label_kept(image, defaults, falls, scopes, s))
}

// Refusal 19 at a state: its parameters, their bounds, what is in scope, and its label byte. One pass,
// from the root on, which fills the table of scopes as it goes.
ghost use Rattle.std.specs.Prelude.{◌*◌, ◌≤◌, ◌<◌, ◌≡◌, length};
ghost use Rattle.model.specs.Parameters.{scope_of, pair_kept as pair_kept_of, takes_parameters as takes_parameters_of, label_in_scope as label_in_scope_of, parameters_kept as parameters_kept_of};
ghost use Rattle.design.specs.Images.{design_in};
ghost use Rattle.design.specs.Kept.{StatesKept};
ghost use Rattle.design.specs.Resets.{Defaults};
ghost use Rattle.design.specs.Scopes.{scope_length, ScopesBelow};
ghost use Rattle.checker_records.specs.ParameterTests.{first_pair_kept as first_pair_kept_of, second_pair_kept as second_pair_kept_of, Entered, ParametersPassed};

use design::Design;
use design::image::Image;
use design::rows::flows;
use design::scopes::{inherited, put_scope};

// A pair of bounds: two labels, the lower flowing to the upper, where it is used, else zero.
fn pair_kept(image: &Image, used: bool, lower: usize, upper: usize) -> bool
    ensures { result ≡ pair_kept_of (design_in image.now) used lower upper }
{
    if !used {
        return (lower == 0) & (upper == 0);
    }
    if image.design.labels <= lower {
        return false;
    }
    if image.design.labels <= upper {
        return false;
    }
    flows(image, lower, upper)
}

// State s is neither the root nor a default child.
fn takes_parameters(image: &Image, defaults: &[u8], s: usize) -> bool
    requires { StatesKept (design_in image.now) × Defaults (design_in image.now) defaults.now × (s < image.now.design.states) }
    ensures { result ≡ takes_parameters_of (design_in image.now) s }
{
    if s == 0 {
        return false;
    }
    let parent = image.parent(s);
    defaults[parent] != s as u8
}

// The label byte of state s stands for a label, or for one of so many parameters in scope.
fn label_in_scope(image: &Image, s: usize, count: usize) -> bool
    requires { (s < image.now.design.states) × (count ≡ length (scope_of (design_in image.now) s)) }
    ensures { result ≡ label_in_scope_of (design_in image.now) s }
{
    let label = image.state_label(s);
    if label < Design::PARAMETER_LABEL {
        return true;
    }
    label - Design::PARAMETER_LABEL < count
}

// The first pair of bounds of state s.
fn first_pair_kept(image: &Image, s: usize) -> bool
    requires { s < image.now.design.states }
    ensures { result ≡ first_pair_kept_of (design_in image.now) s }
{
    let own = image.parameters(s);
    let lower = image.first_lower(s);
    let upper = image.first_upper(s);
    pair_kept(image, 0 < own, lower, upper)
}

// The second one.
fn second_pair_kept(image: &Image, s: usize) -> bool
    requires { s < image.now.design.states }
    ensures { result ≡ second_pair_kept_of (design_in image.now) s }
{
    let own = image.parameters(s);
    let lower = image.second_lower(s);
    let upper = image.second_upper(s);
    pair_kept(image, 1 < own, lower, upper)
}

// Every rule of state s.
fn parameters_kept(image: &Image, defaults: &[u8], scopes: &[u8], s: usize) -> bool
    requires describes { StatesKept (design_in image.now) × (s < image.now.design.states) }
    requires defaults { Defaults (design_in image.now) defaults.now × ScopesBelow (design_in image.now) scopes.now s }
    ensures { result ≡ parameters_kept_of (design_in image.now) s }
{
    let own = image.parameters(s);
    let count = inherited(image, scopes, s) + own;
    (own <= Design::PARAMETERS)
        & (takes_parameters(image, defaults, s) | (own == 0))
        & (count <= Design::PARAMETERS)
        & first_pair_kept(image, s)
        & second_pair_kept(image, s)
        & label_in_scope(image, s, count)
}

// State s is judged; where it keeps its rules, its scope is entered in the table.
fn enter(image: &Image, defaults: &[u8], scopes: &mut [u8], s: usize) -> bool
    requires describes { StatesKept (design_in image.now) × (s < image.now.design.states) }
    requires defaults { Defaults (design_in image.now) defaults.now × ScopesBelow (design_in image.now) scopes.old s }
    ensures { Entered (design_in image.now) s result scopes.old scopes.new }
{
    if !parameters_kept(image, defaults, scopes, s) {
        return false;
    }
    put_scope(image, scopes, s);
    true
}

// Refusal 19, at the lowest state. The table has the scopes of the states below it; where there is none, of all.
pub fn parameters(image: &Image, defaults: &[u8], scopes: &mut [u8]) -> Option<usize>
    requires describes { StatesKept (design_in image.now) }
    requires defaults { Defaults (design_in image.now) defaults.now × (scope_length * image.now.design.states ≤ length scopes.old) }
    ensures { ParametersPassed (design_in image.now) result scopes.old scopes.new }
{
    for s in 0..image.design.states {
        if !enter(image, defaults, scopes, s) {
            return Some(s);
        }
    }
    None
}

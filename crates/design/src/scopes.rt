// The parameters in scope of each state, as a table: three bytes for a state, how many they are and
// the numbers of the first two. And the bounds of a parameter by its number.
ghost use Rattle.std.specs.Prelude.{◌*◌, ◌≤◌, ◌<◌, ◌≡◌, length, get_or};
ghost use Rattle.model.specs.Limits.{parameters_max, binding_length};
ghost use Rattle.model.specs.Parameters.{scope_of, has_parameters as has_parameters_of, lower_bound as lower_bound_of, upper_bound as upper_bound_of};
ghost use Rattle.design.specs.Images.{design_in};
ghost use Rattle.design.specs.Kept.{StatesKept};
ghost use Rattle.design.specs.Scopes.{scope_length, has_own, inherited_scope, with_scope, with_scopes, ScopesBelow, Scopes, ScopesShort};

use crate::Design;
use crate::image::Image;

// The bytes that a state takes in the table.
pub const SCOPE_LENGTH: usize = 3;
// The length of a table for the most states.
pub const SCOPES: usize = SCOPE_LENGTH * Design::STATES;

// The lower bound of parameter v.
pub fn lower_bound(image: &Image, v: usize) -> usize
    requires { v < binding_length * image.now.design.states }
    ensures { (result ≡ lower_bound_of (design_in image.now) v) × (result < 256) }
{
    let s = v / Design::BINDING_LENGTH;
    if v % Design::BINDING_LENGTH == 0 {
        return image.first_lower(s);
    }
    image.second_lower(s)
}

// The upper bound of parameter v.
pub fn upper_bound(image: &Image, v: usize) -> usize
    requires { v < binding_length * image.now.design.states }
    ensures { (result ≡ upper_bound_of (design_in image.now) v) × (result < 256) }
{
    let s = v / Design::BINDING_LENGTH;
    if v % Design::BINDING_LENGTH == 0 {
        return image.first_upper(s);
    }
    image.second_upper(s)
}

// How many parameters state s has from the states above it.
pub fn inherited(image: &Image, scopes: &[u8], s: usize) -> usize
    requires { StatesKept (design_in image.now) × ScopesBelow (design_in image.now) scopes.now s × (s < image.now.design.states) }
    ensures { (result ≡ length (inherited_scope (design_in image.now) s)) × (result < 256) }
{
    if s == 0 {
        return 0;
    }
    let parent = image.parent(s);
    usize::from(scopes[SCOPE_LENGTH * parent])
}

// Parameter i in scope of state s: those from above come first, its own ones last.
fn parameter(image: &Image, scopes: &[u8], s: usize, i: usize) -> usize
    requires { StatesKept (design_in image.now) × ScopesBelow (design_in image.now) scopes.now s × (s < image.now.design.states) × (i < parameters_max) }
    ensures { (result ≡ get_or (scope_of (design_in image.now) s) i 0) × (result < 256) }
{
    let above = inherited(image, scopes, s);
    if i < above {
        let parent = image.parent(s);
        return usize::from(scopes[SCOPE_LENGTH * parent + 1 + i]);
    }
    let own = i - above;
    if own < image.parameters(s) {
        return Design::BINDING_LENGTH * s + own;
    }
    0
}

// The entry of state s, behind those of the states below it.
pub fn put_scope(image: &Image, scopes: &mut [u8], s: usize)
    requires { StatesKept (design_in image.now) × ScopesBelow (design_in image.now) scopes.old s × (s < image.now.design.states) × (length (scope_of (design_in image.now) s) ≤ parameters_max) }
    ensures { scopes.new ≡ with_scope (design_in image.now) s scopes.old }
{
    let above = inherited(image, scopes, s);
    let own = image.parameters(s);
    let first = parameter(image, scopes, s, 0);
    let second = parameter(image, scopes, s, 1);
    let at = SCOPE_LENGTH * s;
    scopes[at] = (above + own) as u8;
    scopes[at + 1] = first as u8;
    scopes[at + 2] = second as u8;
}

// How many parameters are in scope of state s, as the table has it.
pub fn count(image: &Image, scopes: &[u8], s: usize) -> usize
    requires { Scopes (design_in image.now) scopes.now × (s < image.now.design.states) }
    ensures { (result ≡ length (scope_of (design_in image.now) s)) × (result < 256) }
{
    usize::from(scopes[SCOPE_LENGTH * s])
}

// Parameter i in scope of state s, as the table has it; 0 where there is none.
pub fn in_scope(image: &Image, scopes: &[u8], s: usize, i: usize) -> usize
    requires { Scopes (design_in image.now) scopes.now × (s < image.now.design.states) × (i < parameters_max) }
    ensures { (result ≡ get_or (scope_of (design_in image.now) s) i 0) × (result < 256) }
{
    usize::from(scopes[SCOPE_LENGTH * s + 1 + i])
}

// State s has a parameter of its own.
fn has_own(image: &Image, s: usize) -> bool
    requires { s < image.now.design.states }
    ensures { result ≡ has_own (design_in image.now) s }
{
    image.parameters(s) != 0
}

// Some state has a parameter. Where none has, the table has only zeros.
pub fn has_parameters(image: &Image) -> bool
    ensures { result ≡ has_parameters_of (design_in image.now) }
{
    (0..image.design.states).any(|s| has_own(image, s))
}

// The entries of all states.
pub fn scopes(image: &Image, scopes: &mut [u8])
    requires { StatesKept (design_in image.now) × ScopesShort (design_in image.now) × (scope_length * image.now.design.states ≤ length scopes.old) }
    ensures { (scopes.new ≡ with_scopes (design_in image.now) image.now.design.states scopes.old) × Scopes (design_in image.now) scopes.new }
{
    for s in 0..image.design.states {
        put_scope(image, scopes, s);
    }
}

// The targets, in front in their area: one byte for each state.
ghost use Rattle.std.specs.Prelude.{◌<◌, ◌≡◌, cond, eqb, length};
ghost use Rattle.model.specs.Indices.{lowest_failing};
ghost use Rattle.model.specs.States.{is_child as is_child_of};
ghost use Rattle.model.specs.Machine.{target_sound, cleared, gone_to};
ghost use Rattle.design.specs.Images.{design_in};
ghost use Rattle.design.specs.Kept.{StatesKept};
ghost use Rattle.design.specs.Resets.{Defaults};

use design::Design;
use design::image::Image;
use design::states::is_child;

// Number q is a state that is a child of s.
fn names_child(image: &Image, s: usize, q: usize) -> bool
    ensures { result ≡ is_child_of (design_in image.now) s q }
{
    if q < image.design.states {
        return is_child(image, s, q);
    }
    false
}

// The target of state s is a child of it, or s itself where it has none: then s is its own default
// target.
fn sound(image: &Image, defaults: &[u8], targets: &[u8], s: usize) -> bool
    requires { StatesKept (design_in image.now) × Defaults (design_in image.now) defaults.now × (length targets.now ≡ image.now.design.states) × (s < image.now.design.states) }
    ensures { result ≡ target_sound (design_in image.now) targets.now s }
{
    let q = usize::from(targets[s]);
    if usize::from(defaults[s]) == s {
        return q == s;
    }
    names_child(image, s, q)
}

// The lowest state whose target is not sound.
pub fn unsound(image: &Image, defaults: &[u8], targets: &[u8]) -> Option<usize>
    requires { StatesKept (design_in image.now) × Defaults (design_in image.now) defaults.now × (length targets.now ≡ image.now.design.states) }
    ensures { result ≡ lowest_failing (target_sound (design_in image.now) targets.now) (length (design_in image.now).states) }
{
    (0..image.design.states).find(|&s| !sound(image, defaults, targets, s))
}

// The first byte, or the second where the mark is 0.
fn chosen(mark: u8, marked: u8, unmarked: u8) -> u8
    ensures { result ≡ cond (eqb mark 0) unmarked marked }
{
    if mark == 0 {
        return unmarked;
    }
    marked
}

// State t and all its descendants take their default targets. One pass upwards: a state is marked
// where its parent is, whose number is lower.
fn clear(image: &Image, defaults: &[u8], targets: &mut [u8], t: usize)
    requires { StatesKept (design_in image.now) × Defaults (design_in image.now) defaults.now × (length targets.old ≡ image.now.design.states) × (t < image.now.design.states) }
    ensures { targets.new ≡ cleared (design_in image.now) t targets.old }
{
    let mut marks = [0u8; Design::STATES];
    marks[t] = 1;
    targets[t] = defaults[t];
    for s in t + 1..image.design.states {
        let p = image.parent(s);
        let mark = marks[p];
        marks[s] = mark;
        let taken = defaults[s];
        let old = targets[s];
        targets[s] = chosen(mark, taken, old);
    }
}

// The same, where t may have no child: then it is alone, and its default target is itself.
fn clear_family(image: &Image, defaults: &[u8], targets: &mut [u8], t: usize)
    requires { StatesKept (design_in image.now) × Defaults (design_in image.now) defaults.now × (length targets.old ≡ image.now.design.states) × (t < image.now.design.states) }
    ensures { targets.new ≡ cleared (design_in image.now) t targets.old }
{
    if usize::from(defaults[t]) == t {
        targets[t] = t as u8;
        return;
    }
    clear(image, defaults, targets, t);
}

// A goto to t: it and its descendants take their default targets, and its parent's target is t.
pub fn go_to(image: &Image, defaults: &[u8], targets: &mut [u8], t: usize)
    requires { StatesKept (design_in image.now) × Defaults (design_in image.now) defaults.now × (length targets.old ≡ image.now.design.states) × (t < image.now.design.states) }
    ensures { targets.new ≡ gone_to (design_in image.now) t targets.old }
{
    clear_family(image, defaults, targets, t);
    let p = image.parent(t);
    targets[p] = t as u8;
}

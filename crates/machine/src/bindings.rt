// The bindings, behind the targets in their area: two bytes for each state, the registers bound to its
// own parameters.
ghost use Rattle.std.specs.Prelude.{◌*◌, ◌<◌, ◌≡◌, ◌||◌, cond, eqb, ltb, length, get_or};
ghost use Rattle.model.specs.Limits.{binding_length, target_length};
ghost use Rattle.model.specs.Indices.{all_below, lowest_failing};
ghost use Rattle.model.specs.Lattice.{register_label as register_label_of};
ghost use Rattle.model.specs.Parameters.{all_of, own_parameters, within_bounds};
ghost use Rattle.model.specs.Bindings.{on_path, bound_sound, binding_sound};
ghost use Rattle.model.specs.Calls.{targets_in, bindings_in};
ghost use Rattle.design.specs.Images.{design_in, RecordsIn};
ghost use Rattle.design.specs.Kept.{ParametersKept};
ghost use Rattle.machine.specs.Bindings.{ArgumentsFitIn, Bound, Packable, Packed, TargetsSound, is_free, may_bind as may_bind_of};

use design::Design;
use design::image::Image;
use design::rows::flows;
use design::scopes::{SCOPE_LENGTH, lower_bound, upper_bound};

// A goto to t binds its arguments, registers a and b. With one parameter the second byte stays.
pub fn bind(image: &Image, area: &mut [u8], t: usize, a: usize, b: usize)
    requires { (length area.old ≡ target_length * image.now.design.states) × (t < image.now.design.states) × ArgumentsFitIn image.now t a b }
    ensures { Bound (design_in image.now) t a b area.old area.new }
{
    let own = image.parameters(t);
    let at = image.design.states + Design::BINDING_LENGTH * t;
    if own == 0 {
        return;
    }
    area[at] = a as u8;
    if own == 1 {
        return;
    }
    area[at + 1] = b as u8;
}

// The registers bound to the parameters in scope of state s, packed in one number.
pub fn bound_to(scopes: &[u8], states: usize, area: &[u8], s: usize) -> usize
    requires { Packable scopes.now states area.now s }
    ensures { Packed scopes.now states area.now s result }
{
    let at = SCOPE_LENGTH * s;
    let count = scopes[at];
    if count == 0 {
        return 0;
    }
    let first = usize::from(area[states + usize::from(scopes[at + 1])]);
    if count == 1 {
        return first;
    }
    let second = usize::from(area[states + usize::from(scopes[at + 2])]);
    first + 256 * second
}

// A binding is 0 or a register's number.
fn byte_kept(design: Design, r: usize) -> bool
    ensures { result ≡ (eqb r 0 || ltb r design.registers) }
{
    (r == 0) | (r < design.registers)
}

// The label of register r lies within the bounds of parameter v.
fn within(image: &Image, v: usize, r: usize) -> bool
    requires { RecordsIn image.now × ParametersKept (design_in image.now) × (v < binding_length * image.now.design.states) × (r < image.now.design.registers) }
    ensures { result ≡ within_bounds (design_in image.now) v (register_label_of (design_in image.now) r) }
{
    let label = image.register_label(r);
    let lower = lower_bound(image, v);
    let upper = upper_bound(image, v);
    flows(image, lower, label) & flows(image, label, upper)
}

// Register r exists, is no port, and its label lies within the bounds of parameter v.
fn may_bind(image: &Image, v: usize, r: usize) -> bool
    requires { RecordsIn image.now × ParametersKept (design_in image.now) × (v < binding_length * image.now.design.states) }
    ensures { result ≡ may_bind_of (design_in image.now) v r }
{
    if r < image.design.registers {
        let inner = image.register_kind(r) != 1;
        return inner & within(image, v, r);
    }
    false
}

// The registers bound to the own parameters of state s may be bound to them.
fn own_kept(image: &Image, area: &[u8], s: usize) -> bool
    requires { RecordsIn image.now × ParametersKept (design_in image.now) × (length area.now ≡ target_length * image.now.design.states) × (s < image.now.design.states) }
    ensures { result ≡ all_of (bound_sound (design_in image.now) (bindings_in (design_in image.now) area.now)) (own_parameters (design_in image.now) s) }
{
    let own = image.parameters(s);
    if own == 0 {
        return true;
    }
    let v = Design::BINDING_LENGTH * s;
    let first = may_bind(image, v, usize::from(area[image.design.states + v]));
    if own == 1 {
        return first;
    }
    first & may_bind(image, v + 1, usize::from(area[image.design.states + v + 1]))
}

// The bindings of state s are sound. It stands along the current targets where it is the next of them.
fn kept(image: &Image, area: &[u8], s: usize, next: usize) -> bool
    requires { RecordsIn image.now × ParametersKept (design_in image.now) × (length area.now ≡ target_length * image.now.design.states) × (s < image.now.design.states) × (eqb s next ≡ on_path (design_in image.now) (targets_in (design_in image.now) area.now) s) }
    ensures { result ≡ binding_sound (design_in image.now) (targets_in (design_in image.now) area.now) (bindings_in (design_in image.now) area.now) s }
{
    let at = image.design.states + Design::BINDING_LENGTH * s;
    let first = byte_kept(image.design, usize::from(area[at]));
    let second = byte_kept(image.design, usize::from(area[at + 1]));
    if s == next {
        return first & second & own_kept(image, area, s);
    }
    first & second
}

// The next state along the current targets, behind state s.
fn next_behind(area: &[u8], s: usize, next: usize) -> usize
    requires { s < length area.now }
    ensures { result ≡ cond (eqb s next) (get_or area.now s 0) next }
{
    if s == next {
        return usize::from(area[s]);
    }
    next
}

// State s has no parameter, and both its bytes are 0.
fn free(image: &Image, area: &[u8], s: usize) -> bool
    requires { (length area.now ≡ target_length * image.now.design.states) × (s < image.now.design.states) }
    ensures { result ≡ is_free (design_in image.now) area.now s }
{
    let own = image.parameters(s);
    let at = image.design.states + Design::BINDING_LENGTH * s;
    let first = usize::from(area[at]);
    let second = usize::from(area[at + 1]);
    (own == 0) & ((first == 0) & (second == 0))
}

// So it is with every state. It spares most designs the way along the targets.
fn all_free(image: &Image, area: &[u8]) -> bool
    requires { length area.now ≡ target_length * image.now.design.states }
    ensures { result ≡ all_below (is_free (design_in image.now) area.now) (length (design_in image.now).states) }
{
    (0..image.design.states).all(|s| free(image, area, s))
}

// The lowest state whose bindings are not sound. A target has a higher number than its state, so one pass
// upwards meets the states along the targets in their order.
pub fn unbound(image: &Image, area: &[u8]) -> Option<usize>
    requires { RecordsIn image.now × ParametersKept (design_in image.now) × (length area.now ≡ target_length * image.now.design.states) × TargetsSound (design_in image.now) area.now }
    ensures { result ≡ lowest_failing (binding_sound (design_in image.now) (targets_in (design_in image.now) area.now) (bindings_in (design_in image.now) area.now)) (length (design_in image.now).states) }
{
    if all_free(image, area) {
        return None;
    }
    let mut next = 0;
    for s in 0..image.design.states {
        if !kept(image, area, s, next) {
            return Some(s);
        }
        next = next_behind(area, s, next);
    }
    None
}

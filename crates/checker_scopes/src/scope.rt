// Refusal 19 at nodes: a body names only parameters in scope of its state, and a goto's arguments
// lie within the bounds they are given to. By recursion over parts, which answers the lowest place.
ghost use Rattle.std.specs.Prelude.{◌<◌, ◌≡◌, ◌&&◌, ◌||◌, leb, ltb, length};
ghost use Rattle.design.specs.Images.{design_in, RecordsIn};
ghost use Rattle.model.specs.Limits.{parameter_register, binding_length};
ghost use Rattle.model.specs.Indices.{lowest_of};
ghost use Rattle.model.specs.Trees.{expr_of, cmd_of};
ghost use Rattle.model.specs.Parameters.{label_byte, least_label, most_label};
ghost use Rattle.model.specs.Scopes.{argument_kept as argument_kept_of, field_kept as field_kept_of, arguments_kept as arguments_kept_of, scope_faults as scope_faults_of, state_scope_faults, scope_fault};
ghost use Rattle.design.specs.Kept.{ParametersKept};
ghost use Rattle.design.specs.Scopes.{Scopes};
ghost use Rattle.checker_scopes.specs.Scoping.{node_place_of, names_past, Argument, ArguingIn, CountingIn, GivenIn, ReadingIn, ScopingIn};

use checker_bodies::places::{charged_unless, found, lower};
use design::Design;
use design::image::Image;
use design::rows::flows;
use design::scopes::{count, in_scope, lower_bound, upper_bound};

// No place: it is past every command and every expression.
const NODES: usize = Design::EXPRESSION_PLACE + Design::EXPRESSIONS;

// The least and the greatest label that argument r of state s stands for: a register's own, or the bounds
// of a parameter in scope.
fn span(image: &Image, scopes: &[u8], s: usize, r: usize) -> (usize, usize)
    requires { ArguingIn image.now scopes.now s × Argument (design_in image.now) s r }
    ensures { (result.0 ≡ least_label (design_in image.now) s (label_byte (design_in image.now) r))
        × (result.1 ≡ most_label (design_in image.now) s (label_byte (design_in image.now) r)) }
{
    if r < Design::PARAMETER_REGISTER {
        let label = image.register_label(r);
        return (label, label);
    }
    let v = in_scope(image, scopes, s, r - Design::PARAMETER_REGISTER);
    (lower_bound(image, v), upper_bound(image, v))
}

// Byte r is a register's number, or names a parameter in scope.
fn is_argument(registers: usize, end: usize, r: usize) -> bool
    ensures { result ≡ (ltb r registers || (leb parameter_register r && ltb r end)) }
{
    (r < registers) | ((Design::PARAMETER_REGISTER <= r) & (r < end))
}

// Argument r of a goto in state s lies within the bounds of parameter v, to which it is given. The bytes
// from 64 to below an end name parameters in scope.
fn argument_kept(image: &Image, scopes: &[u8], s: usize, end: usize, v: usize, r: usize) -> bool
    requires { ArguingIn image.now scopes.now s × CountingIn image.now s end × GivenIn image.now v }
    ensures { result ≡ argument_kept_of (design_in image.now) s v r }
{
    if !is_argument(image.design.registers, end, r) {
        return false;
    }
    let lower = lower_bound(image, v);
    let upper = upper_bound(image, v);
    let (least, most) = span(image, scopes, s, r);
    flows(image, lower, least) & flows(image, most, upper)
}

// Field j of a goto to t: an argument where t has a parameter for it, else 0.
fn field_kept(
    image: &Image,
    scopes: &[u8],
    s: usize,
    end: usize,
    t: usize,
    j: usize,
    r: usize,
) -> bool
    requires { ArguingIn image.now scopes.now s × CountingIn image.now s end × (t < length (design_in image.now).states) × (j < binding_length) }
    ensures { result ≡ field_kept_of (design_in image.now) s t j r }
{
    let count = image.parameters(t);
    if j < count {
        return argument_kept(image, scopes, s, end, Design::BINDING_LENGTH * t + j, r);
    }
    r == 0
}

// The arguments of a goto to t, its fields a and b.
fn arguments_kept(
    image: &Image,
    scopes: &[u8],
    s: usize,
    end: usize,
    t: usize,
    a: usize,
    b: usize,
) -> bool
    requires { ArguingIn image.now scopes.now s × CountingIn image.now s end × (t < length (design_in image.now).states) }
    ensures { result ≡ arguments_kept_of (design_in image.now) s t a b }
{
    field_kept(image, scopes, s, end, t, 0, a) & field_kept(image, scopes, s, end, t, 1, b)
}

// The lowest place at which expression e names a parameter that is not in scope; end is the first
// byte that names none.
fn reads(image: &Image, end: usize, e: usize) -> usize
    requires { ReadingIn image.now e }
    ensures { result ≡ node_place_of (lowest_of (names_past end (expr_of (design_in image.now) e))) }
{
    match image.expression_kind(e) {
        1 => {
            let r = image.expression_item(e);
            charged_unless(r < end, Design::EXPRESSION_PLACE + e, NODES)
        }
        2..=11 => {
            let p = reads(image, end, image.expression_a(e));
            let q = reads(image, end, image.expression_b(e));
            lower(p, q)
        }
        _ => NODES,
    }
}

// The lowest place at which command n of state s breaks a rule of 19.
fn scoped(image: &Image, scopes: &[u8], s: usize, end: usize, n: usize) -> usize
    requires { ScopingIn image.now scopes.now s n × CountingIn image.now s end }
    ensures { result ≡ node_place_of (lowest_of (scope_faults_of (design_in image.now) s (cmd_of (design_in image.now) n))) }
{
    match image.command_kind(n) {
        1 => {
            let r = image.command_item(n);
            let read = reads(image, end, image.command_a(n));
            lower(charged_unless(r < end, n, NODES), read)
        }
        2 => {
            let p = scoped(image, scopes, s, end, image.command_a(n));
            let q = scoped(image, scopes, s, end, image.command_b(n));
            lower(p, q)
        }
        4 => {
            let t = image.command_item(n);
            let a = image.command_a(n);
            let b = image.command_b(n);
            let kept = arguments_kept(image, scopes, s, end, t, a, b);
            charged_unless(kept, n, NODES)
        }
        5 => {
            let read = reads(image, end, image.command_a(n));
            let p = scoped(image, scopes, s, end, image.command_b(n));
            let q = scoped(image, scopes, s, end, image.command_c(n));
            lower(read, lower(p, q))
        }
        _ => NODES,
    }
}

// The lowest place of the body of state s.
fn state_scope(image: &Image, scopes: &[u8], s: usize) -> usize
    requires { RecordsIn image.now × ParametersKept (design_in image.now) × Scopes (design_in image.now) scopes.now × (s < image.now.design.states) }
    ensures { result ≡ node_place_of (lowest_of (state_scope_faults (design_in image.now) s)) }
{
    let n = image.state_command(s);
    let end = Design::PARAMETER_REGISTER + count(image, scopes, s);
    scoped(image, scopes, s, end, n)
}

// Refusal 19, at the lowest node, where it finds no state.
pub fn scope_faults(image: &Image, scopes: &[u8]) -> Option<usize>
    requires { RecordsIn image.now × ParametersKept (design_in image.now) × Scopes (design_in image.now) scopes.now }
    ensures { result ≡ scope_fault (design_in image.now) }
{
    let mut place = NODES;
    for s in 0..image.design.states {
        let here = state_scope(image, scopes, s);
        place = lower(place, here);
    }
    found(place, NODES)
}

// Refusal 8: the shape of commands, by recursion over their parts. What a command's shape comes to
// is one number, which the recursion hands back in a register of the processor: four times the lowest
// place that breaks a rule, two more where the command holds a fall, and one more where it transfers.
// Which states hold a fall is told for refusal 9.
ghost use Rattle.std.specs.Prelude.{◌/◌, ◌%◌, ◌≤◌, ◌<◌, ◌≡◌, ◌||◌, min, not, eqb, length, get_or};
ghost use Rattle.design.specs.Images.{design_in};
ghost use Rattle.model.specs.Limits.{commands_max};
ghost use Rattle.model.specs.Trees.{cmd_of};
ghost use Rattle.model.specs.States.{sibling_or_self as sibling_or_self_of};
ghost use Rattle.design.specs.Resets.{Defaults};
ghost use Rattle.checker_bodies.specs.Places.{place_unless};
ghost use Rattle.checker_bodies.specs.Shapes.{judgement_of, judgement_most, falls_in, sequenced_as, branched_as, judged_of, number_of, body_number_of, JudgingIn, ShapeKnownIn, ShapesPassed};

use crate::places::{NOWHERE, charged_unless, found, lower};
use design::image::Image;

// What a shape comes to, as a number.
fn judgement(transfers: bool, falls: bool, lowest: usize) -> usize
    requires { lowest ≤ commands_max }
    ensures { result ≡ judgement_of transfers falls lowest }
{
    4 * lowest + 2 * usize::from(falls) + usize::from(transfers)
}

// Whether the command transfers.
fn transfers(judged: usize) -> bool
    ensures { result ≡ eqb (judged % 2) 1 }
{
    judged % 2 == 1
}

// Whether the command holds a fall.
fn holds_fall(judged: usize) -> bool
    ensures { result ≡ eqb (judged / 2 % 2) 1 }
{
    judged / 2 % 2 == 1
}

// The lowest place that breaks a rule.
fn lowest(judged: usize) -> usize
    ensures { result ≡ judged / 4 }
{
    judged / 4
}

// State t is s or a sibling of s.
fn sibling_or_self(image: &Image, s: usize, t: usize) -> bool
    requires { (s < image.now.design.states) × (t < image.now.design.states) }
    ensures { result ≡ sibling_or_self_of (design_in image.now) s t }
{
    (s != 0) & (t != 0) & (image.parent(t) == image.parent(s))
}

// What a command of two parts comes to, from what they come to.
fn joined(n: usize, p: usize, q: usize, kept: bool, transfers: bool) -> usize
    requires { (p ≤ judgement_most) × (q ≤ judgement_most) }
    ensures { result ≡ judgement_of transfers (falls_in p || falls_in q) (min (place_unless kept n) (min (p / 4) (q / 4))) }
{
    let parts = lower(lowest(p), lowest(q));
    let own = charged_unless(kept, n, NOWHERE);
    judgement(transfers, holds_fall(p) | holds_fall(q), lower(own, parts))
}

// What a sequence comes to, from its parts.
fn sequenced(n: usize, p: usize, q: usize) -> usize
    requires { (p ≤ judgement_most) × (q ≤ judgement_most) }
    ensures { result ≡ sequenced_as n p q }
{
    joined(n, p, q, !transfers(p), transfers(q))
}

// What an if comes to, from its branches.
fn branched(n: usize, p: usize, q: usize) -> usize
    requires { (p ≤ judgement_most) × (q ≤ judgement_most) }
    ensures { result ≡ branched_as n p q }
{
    let first = transfers(p);
    let second = transfers(q);
    joined(n, p, q, first == second, first & second)
}

// What command n of state s comes to; child tells whether s has one.
fn judge(image: &Image, s: usize, child: bool, n: usize) -> usize
    requires { JudgingIn image.now s n child }
    ensures { result ≡ number_of (judged_of (design_in image.now) s (cmd_of (design_in image.now) n)) }
{
    match image.command_kind(n) {
        2 => {
            let p = judge(image, s, child, image.command_a(n));
            let q = judge(image, s, child, image.command_b(n));
            sequenced(n, p, q)
        }
        3 => judgement(true, true, charged_unless(child, n, NOWHERE)),
        4 => {
            let kept = sibling_or_self(image, s, image.command_item(n));
            judgement(true, false, charged_unless(kept, n, NOWHERE))
        }
        5 => {
            let p = judge(image, s, child, image.command_b(n));
            let q = judge(image, s, child, image.command_c(n));
            branched(n, p, q)
        }
        _ => judgement(false, false, NOWHERE),
    }
}

// State s has a child: its default target is another state.
fn has_child(defaults: &[u8], s: usize) -> bool
    requires { (s < length defaults.now) × (s < 256) }
    ensures { result ≡ not (eqb (get_or defaults.now s 0) s) }
{
    defaults[s] != s as u8
}

// What the body of state s comes to; a state that does not transfer is charged to its command, so
// that nothing is left to say of transferring.
fn state_shape(image: &Image, defaults: &[u8], s: usize) -> usize
    requires { ShapeKnownIn image.now × Defaults (design_in image.now) defaults.now × (s < image.now.design.states) }
    ensures { result ≡ body_number_of (design_in image.now) s }
{
    let n = image.state_command(s);
    let child = has_child(defaults, s);
    let body = judge(image, s, child, n);
    let own = charged_unless(transfers(body), n, NOWHERE);
    let place = lower(own, lowest(body));
    judgement(true, holds_fall(body), place)
}

// Refusal 8, at the lowest node; and which states hold a fall.
pub fn shapes(image: &Image, defaults: &[u8], falls: &mut [u8]) -> Option<usize>
    requires { ShapeKnownIn image.now × Defaults (design_in image.now) defaults.now × (image.now.design.states ≤ length falls.old) }
    ensures { ShapesPassed (design_in image.now) result falls.old falls.new }
{
    let mut place = NOWHERE;
    for s in 0..image.design.states {
        let here = state_shape(image, defaults, s);
        falls[s] = u8::from(holds_fall(here));
        place = lower(place, lowest(here));
    }
    found(place, image.design.commands)
}

// Refusals 10 to 12: the flow rules, by recursion over parts, under the labels of a table, in which
// entry r is the label of register r. A context is a mask of label bytes: bit l is set where all of
// the context flows to label byte l for each choice. The recursion answers a place; which rule is
// broken there, the command's kind tells. It stops at the first fault in the order in which a body is
// written.
ghost use Rattle.std.specs.Prelude.{◌+◌, ◌<◌, ◌≡◌, length, get_or};
ghost use Rattle.model.specs.Limits.{parameter_label};
ghost use Rattle.model.specs.Image.{command_at};
ghost use Rattle.model.specs.Lattice.{state_label as state_label_of};
ghost use Rattle.model.specs.Trees.{expr_of, cmd_of, body_of};
ghost use Rattle.model.specs.Labelling.{relabelled};
ghost use Rattle.model.specs.Flow.{named_label as named_label_of, flow_answer};
ghost use Rattle.design.specs.Images.{design_in, RecordsIn};
ghost use Rattle.design.specs.Kept.{ParametersKept};
ghost use Rattle.design.specs.Labels.{LabelsKept};
ghost use Rattle.design.specs.Scopes.{inherited_scope, Scopes, NoParameters};
ghost use Rattle.checker_flow.specs.Masks.{masks_length, Masks};
ghost use Rattle.checker_flow.specs.Flows.{BodiesKept, Entered, label_in, mask_read, assign_place, flow_place, GatheringIn, AssigningIn, FlowingIn, GoingIn, answer_among};

use crate::masks::{ALL, MASKS, label_rows, scope_masks};
use checker_bodies::places::{NOWHERE, charged_unless};
use design::Design;
use design::image::Image;
use design::rows::bit;
use design::scopes::inherited;
use model::{Answer, Refusal};

// The label byte of what a register byte names: a parameter has one of its own.
fn label_of(labels: &[u8], r: usize) -> usize
    requires { Entered labels.now r }
    ensures { result ≡ label_in labels.now r }
{
    if r < Design::PARAMETER_REGISTER {
        return usize::from(labels[r]);
    }
    Design::PARAMETER_LABEL + (r - Design::PARAMETER_REGISTER)
}

// The mask of what a register byte names.
fn register_mask(labels: &[u8], masks: &[usize; MASKS], r: usize) -> usize
    requires { Entered labels.now r × (label_in labels.now r < masks_length) }
    ensures { result ≡ get_or masks.now (label_in labels.now r) 0 }
{
    let label = label_of(labels, r);
    masks[label]
}

// The mask of the labels of all registers that an expression reads.
pub fn reads(image: &Image, labels: &[u8], masks: &[usize; MASKS], e: usize) -> usize
    requires { GatheringIn image.now labels.now e }
    ensures { result ≡ mask_read labels.now masks.now (expr_of (design_in image.now) e) }
{
    match image.expression_kind(e) {
        1 => {
            let r = image.expression_item(e);
            register_mask(labels, masks, r)
        }
        2..=11 => {
            let p = reads(image, labels, masks, image.expression_a(e));
            let q = reads(image, labels, masks, image.expression_b(e));
            p & q
        }
        _ => ALL,
    }
}

// The place of assignment n, unless its context and what it reads flow to what it writes.
fn assign_flow(
    image: &Image,
    labels: &[u8],
    masks: &[usize; MASKS],
    context: usize,
    n: usize,
) -> usize
    requires { AssigningIn image.now labels.now n }
    ensures { result ≡ assign_place labels.now masks.now context n (command_at (design_in image.now) n).item (expr_of (design_in image.now) (command_at (design_in image.now) n).a) }
{
    let r = image.command_item(n);
    let e = image.command_a(n);
    let mask = context & reads(image, labels, masks, e);
    let label = label_of(labels, r);
    charged_unless(bit(mask, label), n, NOWHERE)
}

// The label byte of the state that goto n names. Where it is that of the state's own parameter, the
// argument's counts.
fn named_label(image: &Image, labels: &[u8], own_from: usize, n: usize) -> usize
    requires { GoingIn image.now labels.now own_from n }
    ensures { result ≡ named_label_of (relabelled (design_in image.now) labels.now) (command_at (design_in image.now) n).item (command_at (design_in image.now) n).a (command_at (design_in image.now) n).b }
{
    let t = image.command_item(n);
    let label = image.state_label(t);
    if label < own_from {
        return label;
    }
    if label == own_from {
        let a = image.command_a(n);
        return label_of(labels, a);
    }
    let b = image.command_b(n);
    label_of(labels, b)
}

// The place of the first flow fault of command n of state s, in a context.
fn flow(
    image: &Image,
    labels: &[u8],
    masks: &[usize; MASKS],
    s: usize,
    own_from: usize,
    context: usize,
    n: usize,
) -> usize
    requires { FlowingIn image.now labels.now masks.now s own_from n }
    ensures { result ≡ flow_place (design_in image.now) labels.now masks.now s context (cmd_of (design_in image.now) n) }
{
    match image.command_kind(n) {
        1 => assign_flow(image, labels, masks, context, n),
        2 => {
            let a = image.command_a(n);
            let b = image.command_b(n);
            let p = flow(image, labels, masks, s, own_from, context, a);
            if p < NOWHERE {
                return p;
            }
            flow(image, labels, masks, s, own_from, context, b)
        }
        3 => {
            let label = image.state_label(s);
            let kept = bit(context, label);
            charged_unless(kept, n, NOWHERE)
        }
        4 => {
            let named = named_label(image, labels, own_from, n);
            let kept = bit(context, named);
            charged_unless(kept, n, NOWHERE)
        }
        5 => {
            let e = image.command_a(n);
            let b = image.command_b(n);
            let c = image.command_c(n);
            let inner = context & reads(image, labels, masks, e);
            let p = flow(image, labels, masks, s, own_from, inner, b);
            if p < NOWHERE {
                return p;
            }
            flow(image, labels, masks, s, own_from, inner, c)
        }
        _ => NOWHERE,
    }
}

// The place of the first flow fault of state s, whose context is its label. The label bytes from own_from
// on are a named state's own parameters.
fn state_flow(
    image: &Image,
    labels: &[u8],
    masks: &[usize; MASKS],
    s: usize,
    own_from: usize,
) -> usize
    requires { RecordsIn image.now × ParametersKept (design_in image.now) × LabelsKept (design_in image.now) labels.now × BodiesKept (design_in image.now) × Masks (design_in image.now) s masks.now × (s < image.now.design.states) × (own_from ≡ parameter_label + length (inherited_scope (design_in image.now) s)) }
    ensures { result ≡ flow_place (design_in image.now) labels.now masks.now s (get_or masks.now (state_label_of (design_in image.now) s) 0) (body_of (design_in image.now) s) }
{
    let label = image.state_label(s);
    let n = image.state_command(s);
    let context = masks[label];
    flow(image, labels, masks, s, own_from, context, n)
}

// The refusal at a place: the command there tells which rule it breaks.
fn answer(image: &Image, place: usize) -> Answer
    ensures { result ≡ answer_among (design_in image.now) place }
{
    if image.design.commands <= place {
        return Ok(0);
    }
    match image.command_kind(place) {
        1 => Err(Refusal::AssignFlow.at(place)),
        4 => Err(Refusal::GotoFlow.at(place)),
        _ => Err(Refusal::FallFlow.at(place)),
    }
}

// Refusals 10 to 12, in the lowest state that has one; the states behind it are not looked at.
pub fn faults(image: &Image, labels: &[u8], scopes: &[u8]) -> Answer
    requires { RecordsIn image.now × ParametersKept (design_in image.now) × Scopes (design_in image.now) scopes.now × LabelsKept (design_in image.now) labels.now × BodiesKept (design_in image.now) }
    ensures { result ≡ flow_answer (relabelled (design_in image.now) labels.now) }
{
    let mut masks = [0usize; MASKS];
    label_rows(image, &mut masks);
    for s in 0..image.design.states {
        scope_masks(image, scopes, &mut masks, s);
        let own_from = Design::PARAMETER_LABEL + inherited(image, scopes, s);
        let place = state_flow(image, labels, &masks, s, own_from);
        if place < NOWHERE {
            return answer(image, place);
        }
    }
    Ok(0)
}

// The same in a design without parameters, in which one table of masks serves all states. Not `faults` with a
// table of zeros, for speed: that looks into it twice for each state.
pub fn plain_faults(image: &Image, labels: &[u8]) -> Answer
    requires { RecordsIn image.now × ParametersKept (design_in image.now) × NoParameters (design_in image.now) × LabelsKept (design_in image.now) labels.now × BodiesKept (design_in image.now) }
    ensures { result ≡ flow_answer (relabelled (design_in image.now) labels.now) }
{
    let mut masks = [0usize; MASKS];
    label_rows(image, &mut masks);
    for s in 0..image.design.states {
        let first = state_flow(image, labels, &masks, s, Design::PARAMETER_LABEL);
        if first < NOWHERE {
            return answer(image, first);
        }
    }
    Ok(0)
}

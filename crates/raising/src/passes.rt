// The passes: each goes over all bodies in reading order, by recursion over parts as in the flow check,
// and raises the register of every assignment whose flow is not kept. A context is a mask of labels: bit
// l is set where all of the context flows to label l. No state has a parameter, so the table of masks
// that the flow check has for each state is the same for all.
ghost use Rattle.std.specs.Prelude.{◌*◌, ◌<◌, ◌≡◌, length};
ghost use Rattle.model.specs.Raising.{raised_times};
ghost use Rattle.design.specs.Images.{design_in};
ghost use Rattle.checker_flow.specs.Masks.{Rows};
ghost use Rattle.raising.specs.Passes.{least_of, Labelling, RaisingIn, RaisingCommandIn, AssignsIn, RaisedAt, RaisedIn, RaisedOnce};

use checker_flow::flow::reads;
use checker_flow::masks::{MASKS, label_rows};
use checker_records::lattice::least_in;
use design::image::Image;
use design::rows::bit;

// The least label of a mask.
fn least(image: &Image, among: usize) -> u8
    ensures { result ≡ least_of (design_in image.now).rows among }
{
    let found = (0..image.design.labels).find(|&k| least_in(image, among, k));
    found.unwrap_or(0) as u8
}

// The register of assignment n, raised to the least label above itself, the context and what is read.
fn raise_register(
    image: &Image,
    masks: &[usize; MASKS],
    labels: &mut [u8],
    context: usize,
    n: usize,
) -> bool
    requires { RaisingIn image.now labels.old × Rows (design_in image.now) masks.now × AssignsIn image.now n }
    ensures { RaisedAt (design_in image.now) masks.now context n labels.old labels.new result }
{
    let r = image.command_item(n);
    let e = image.command_a(n);
    let label = usize::from(labels[r]);
    let own = image.row(label);
    let above = own & (context & reads(image, labels, masks, e));
    if bit(above, label) {
        return false;
    }
    labels[r] = least(image, above);
    true
}

// The registers that command n assigns to, in a context.
fn raise_command(
    image: &Image,
    masks: &[usize; MASKS],
    labels: &mut [u8],
    context: usize,
    n: usize,
) -> bool
    requires { RaisingCommandIn image.now masks.now labels.old n }
    ensures { RaisedAt (design_in image.now) masks.now context n labels.old labels.new result }
{
    let kind = image.command_kind(n);
    match kind {
        1 => raise_register(image, masks, labels, context, n),
        2 => {
            let a = image.command_a(n);
            let b = image.command_b(n);
            let p = raise_command(image, masks, labels, context, a);
            let q = raise_command(image, masks, labels, context, b);
            p | q
        }
        5 => {
            let e = image.command_a(n);
            let b = image.command_b(n);
            let c = image.command_c(n);
            let inner = context & reads(image, labels, masks, e);
            let p = raise_command(image, masks, labels, inner, b);
            let q = raise_command(image, masks, labels, inner, c);
            p | q
        }
        _ => false,
    }
}

// The registers that the body of state s assigns to; its context is the state's label.
fn raise_state(image: &Image, masks: &[usize; MASKS], labels: &mut [u8], s: usize) -> bool
    requires { RaisingIn image.now labels.old × Rows (design_in image.now) masks.now × (s < image.now.design.states) }
    ensures { RaisedIn (design_in image.now) s labels.old labels.new result }
{
    let label = image.state_label(s);
    let n = image.state_command(s);
    let context = image.row(label);
    raise_command(image, masks, labels, context, n)
}

// One pass over all bodies; answers whether a label rose.
fn raise_once(image: &Image, masks: &[usize; MASKS], labels: &mut [u8]) -> bool
    requires { RaisingIn image.now labels.old × Rows (design_in image.now) masks.now }
    ensures { RaisedOnce (design_in image.now) labels.old labels.new result }
{
    let mut moved = false;
    for s in 0..image.design.states {
        let more = raise_state(image, masks, labels, s);
        moved = moved | more;
    }
    moved
}

// Passes until nothing moves: no more than registers can rise.
pub fn raise_labels(image: &Image, labels: &mut [u8])
    requires { RaisingIn image.now labels.old }
    ensures { (labels.new ≡ raised_times (design_in image.now) (length (design_in image.now).registers * length (design_in image.now).rows) labels.old) × Labelling (design_in image.now) labels.new }
{
    let mut masks = [0usize; MASKS];
    label_rows(image, &mut masks);
    let most = image.design.registers * image.design.labels;
    for passes in 0..most {
        if !raise_once(image, &masks, labels) {
            return;
        }
    }
}

// A table of masks for the state at hand, one for each label byte: bit k of entry l is set where l
// flows to label byte k for each choice of labels within the bounds in scope. The rows of the labels
// are the same for all states; only a state that has parameters in scope changes the table.
ghost use Rattle.std.specs.Prelude.{◌/◌, ◌%◌, ◌^◌, ◌<◌, ◌≡◌, length};
ghost use Rattle.design.specs.Images.{design_in, RecordsIn};
ghost use Rattle.model.specs.Limits.{parameters_max};
ghost use Rattle.design.specs.Kept.{ParametersKept};
ghost use Rattle.design.specs.Scopes.{Scopes};
ghost use Rattle.checker_flow.specs.Masks.{masks_length, widened, with_rows, with_own, lower_in_scope, upper_in_scope, scope_masks as scope_masks_of};

use design::Design;
use design::image::Image;
use design::scopes::{SCOPE_LENGTH, lower_bound, upper_bound};

// One entry for each label and each parameter in scope.
pub const MASKS: usize = Design::LABELS + Design::PARAMETERS;
// A mask has a bit for each label byte, those of the labels and then those of two parameters: the two bits
// of the parameters, and all bits.
const FIRST: usize = 1 << Design::LABELS;

const SECOND: usize = 2 * FIRST;

pub const ALL: usize = 2 * SECOND - 1;

// Bit l of a row, as a number.
fn flag(row: usize, l: usize) -> usize
    requires { l < 64 }
    ensures { result ≡ row / 2 ^ l % 2 }
{
    (row >> l) % 2
}

// A row, with a bit for each parameter to whose lower bound it flows.
fn widen(row: usize, first: usize, second: usize) -> usize
    requires { (row < 65536) × (first < 16) × (second < 16) }
    ensures { result ≡ widened row first second }
{
    row + FIRST * flag(row, first) + SECOND * flag(row, second)
}

// The mask of each label, where the parameters in scope have these lower bounds.
fn put_rows(image: &Image, first: usize, second: usize, masks: &mut [usize])
    requires { RecordsIn image.now × (first < 16) × (second < 16) × (length masks.old ≡ masks_length) }
    ensures { masks.new ≡ with_rows (design_in image.now) first second masks.old }
{
    for l in 0..image.design.labels {
        let row = image.row(l);
        masks[l] = widen(row, first, second);
    }
}

// The mask of each label, where no parameter is in scope.
pub fn label_rows(image: &Image, masks: &mut [usize])
    requires { RecordsIn image.now × (length masks.old ≡ masks_length) }
    ensures { masks.new ≡ with_rows (design_in image.now) 0 0 masks.old }
{
    put_rows(image, 0, 0, masks);
}

// The lower and the upper bound of parameter i in scope of state s; 0 where there is none.
fn bounds_in_scope(image: &Image, scopes: &[u8], s: usize, i: usize) -> (usize, usize)
    requires { RecordsIn image.now × ParametersKept (design_in image.now) × Scopes (design_in image.now) scopes.now × (s < image.now.design.states) × (i < parameters_max) }
    ensures { (result.0 ≡ lower_in_scope (design_in image.now) s i) × (result.1 ≡ upper_in_scope (design_in image.now) s i) }
{
    if usize::from(scopes[SCOPE_LENGTH * s]) <= i {
        return (0, 0);
    }
    let v = usize::from(scopes[SCOPE_LENGTH * s + 1 + i]);
    (lower_bound(image, v), upper_bound(image, v))
}

// The masks of the parameters: each is that of its upper bound, and flows to itself.
fn put_own(masks: &mut [usize], first: usize, second: usize)
    requires { (length masks.old ≡ masks_length) × (first < 16) × (second < 16) }
    ensures { masks.new ≡ with_own masks.old first second }
{
    let one = masks[first];
    let other = masks[second];
    masks[Design::PARAMETER_LABEL] = one % FIRST + FIRST + SECOND * (one / SECOND % 2);
    masks[Design::PARAMETER_LABEL + 1] = other % SECOND + SECOND;
}

// The table of state s, from that of another state.
pub fn scope_masks(image: &Image, scopes: &[u8], masks: &mut [usize], s: usize)
    requires { RecordsIn image.now × ParametersKept (design_in image.now) × Scopes (design_in image.now) scopes.now × (length masks.old ≡ masks_length) × (s < image.now.design.states) }
    ensures { masks.new ≡ scope_masks_of (design_in image.now) s masks.old }
{
    if scopes[SCOPE_LENGTH * s] == 0 {
        return;
    }
    let (first, first_upper) = bounds_in_scope(image, scopes, s, 0);
    let (second, second_upper) = bounds_in_scope(image, scopes, s, 1);
    put_rows(image, first, second, masks);
    put_own(masks, first_upper, second_upper);
}

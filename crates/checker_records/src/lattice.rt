// Refusal 2: the label rows are a lattice with label 0 least. One function for each rule of the
// meaning, over tests of one bit and of whole rows as masks.
ghost use Rattle.std.specs.Prelude.{◌-◌, ◌^◌, ◌<◌, ◌≡◌, length, get_or};
ghost use Rattle.model.specs.Indices.{lowest_failing};
ghost use Rattle.model.specs.Lattice.{row_inside as row_inside_of, antisymmetric, transitive, least_full as least_full_of, joined, label_kept as label_kept_of};
ghost use Rattle.design.specs.Images.{design_in};
ghost use Rattle.checker_records.specs.LabelTests.{row_mask, distinct, carries, least_in as least_in_of, joins};

use design::Design;
use design::image::Image;
use design::rows::{bit, flows};

// The row of label i.
fn row(image: &Image, i: usize) -> usize
    requires { i < image.now.design.labels }
    ensures { result ≡ get_or (design_in image.now).rows i 0 }
{
    image.row(i)
}

// A mask with the bit of each label.
fn full(design: Design) -> usize
    requires { design.labels < 64 }
    ensures { result ≡ 2 ^ design.labels - 1 }
{
    (1 << design.labels) - 1
}

// The row of label i, cut to the bits of labels.
fn mask(image: &Image, i: usize) -> usize
    requires { i < image.now.design.labels }
    ensures { result ≡ row_mask (design_in image.now).rows i }
{
    row(image, i) & full(image.design)
}

// The row of label i has no bit at or above the label count.
fn row_inside(image: &Image, i: usize) -> bool
    requires { i < image.now.design.labels }
    ensures { result ≡ row_inside_of (design_in image.now).rows i }
{
    row(image, i) >> image.design.labels == 0
}

// Labels i and j do not flow to each other, or are one label.
fn distinct(image: &Image, i: usize, j: usize) -> bool
    requires { (i < image.now.design.labels) × (j < image.now.design.labels) }
    ensures { result ≡ distinct (design_in image.now).rows i j }
{
    if !flows(image, i, j) {
        return true;
    }
    !flows(image, j, i) | (i == j)
}

// No other label flows to label i and from it.
fn antisymmetric(image: &Image, i: usize) -> bool
    requires { i < image.now.design.labels }
    ensures { result ≡ antisymmetric (design_in image.now).rows i }
{
    (0..image.design.labels).all(|j| distinct(image, i, j))
}

// Where label i flows to j, it flows to whatever j flows to.
fn carries(image: &Image, i: usize, j: usize) -> bool
    requires { (i < image.now.design.labels) × (j < image.now.design.labels) }
    ensures { result ≡ carries (design_in image.now).rows i j }
{
    let from = row(image, i);
    if !bit(from, j) {
        return true;
    }
    let further = mask(image, j);
    further & from == further
}

// Label i flows to whatever a label that it flows to flows to.
fn transitive(image: &Image, i: usize) -> bool
    requires { i < image.now.design.labels }
    ensures { result ≡ transitive (design_in image.now).rows i }
{
    (0..image.design.labels).all(|j| carries(image, i, j))
}

// Label 0 flows to every label: a rule of label 0 alone.
fn least_full(image: &Image, i: usize) -> bool
    requires { i < image.now.design.labels }
    ensures { result ≡ least_full_of (design_in image.now).rows i }
{
    if i != 0 {
        return true;
    }
    let every = full(image.design);
    every & row(image, 0) == every
}

// Label k is one of a mask's labels, and flows to each of them.
pub fn least_in(image: &Image, among: usize, k: usize) -> bool
    requires { k < image.now.design.labels }
    ensures { result ≡ least_in_of (design_in image.now).rows among k }
{
    if !bit(among, k) {
        return false;
    }
    among & row(image, k) == among
}

// Labels i and j have a least label above them.
fn joins(image: &Image, i: usize, j: usize) -> bool
    requires { (i < image.now.design.labels) × (j < image.now.design.labels) }
    ensures { result ≡ joins (design_in image.now).rows i j }
{
    let above = mask(image, i) & row(image, j);
    (0..image.design.labels).any(|k| least_in(image, above, k))
}

// Label i has a least label above it and each other label.
fn joined(image: &Image, i: usize) -> bool
    requires { i < image.now.design.labels }
    ensures { result ≡ joined (design_in image.now).rows i }
{
    (0..image.design.labels).all(|j| joins(image, i, j))
}

// Every rule with label i first.
fn label_kept(image: &Image, i: usize) -> bool
    requires { i < image.now.design.labels }
    ensures { result ≡ label_kept_of (design_in image.now).rows i }
{
    if !row_inside(image, i) {
        return false;
    }
    if !flows(image, i, i) {
        return false;
    }
    if !antisymmetric(image, i) {
        return false;
    }
    if !transitive(image, i) {
        return false;
    }
    if !least_full(image, i) {
        return false;
    }
    joined(image, i)
}

// Refusal 2, at the lowest label.
pub fn labels(image: &Image) -> Option<usize>
    ensures { result ≡ lowest_failing (label_kept_of (design_in image.now).rows) (length (design_in image.now).rows) }
{
    (0..image.design.labels).find(|&i| !label_kept(image, i))
}

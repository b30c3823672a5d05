// Raising: the image with the labels of its inner registers raised as far as the flow rules ask, and no
// further. The labels are raised in a table on the stack, so that the second area stays as it was until
// it is known that there is an accepted raising.
#![tactic(auto)]

mod bytes;
mod passes;

ghost use Rattle.std.specs.Prelude.{◌*◌, ◌≡◌, length};
ghost use Rattle.model.specs.Answers.{Accepted};
ghost use Rattle.model.specs.Labelling.{labels_of};
ghost use Rattle.model.specs.Verdict.{structure as structure_of};
ghost use Rattle.model.specs.Raising.{raised_times, raised_labels, raise as raise_of};
ghost use Rattle.design.specs.Images.{design_in};
ghost use Rattle.design.specs.Scopes.{NoParameters};
ghost use Rattle.raising.specs.Passes.{RaisingIn};
ghost use Rattle.raising.specs.Stages.{raise_within as raise_within_of, raise_plain as raise_plain_of, raise_on};
ghost use Rattle.model.specs.Calls.{left_as};

use crate::bytes::{copy, put_labels};
use crate::passes::raise_labels;
use checker_flow::flow::faults;
use design::Design;
use design::image::Image;
use design::labels::register_labels;
use design::scopes::{SCOPES, has_parameters};
use model::{Answer, Refusal};

// Raising with a table of the registers' own labels, into an area as long as the image. No state has a
// parameter, so the table of what is in scope has only zeros.
fn raise_from(image: &Image, labels: &mut [u8], out: &mut [u8]) -> Answer
    requires { (structure_of image.now.bytes.now ≡ Accepted 0)
        × RaisingIn image.now labels.old
        × (labels.old ≡ labels_of (design_in image.now))
        × (length out.old ≡ length image.now.bytes.now) }
    ensures { (left_as result out.new ≡ raise_within_of image.now.bytes.now out.old)
        × (labels.new ≡ raised_times (design_in image.now) (length (design_in image.now).registers * length (design_in image.now).rows) labels.old) }
{
    raise_labels(image, labels);
    let scopes = [0u8; SCOPES];
    if faults(image, labels, &scopes).is_err() {
        return Err(Refusal::NoRaising.at(0));
    }
    copy(image.bytes, out);
    put_labels(image.design, labels, out);
    Ok(0)
}

// The same with a table that has an entry for each register.
fn raise_within(image: &Image, labels: &mut [u8], out: &mut [u8]) -> Answer
    requires { (structure_of image.now.bytes.now ≡ Accepted 0)
        × NoParameters (design_in image.now)
        × (length labels.old ≡ image.now.design.registers)
        × (length out.old ≡ length image.now.bytes.now) }
    ensures { (left_as result out.new ≡ raise_within_of image.now.bytes.now out.old)
        × (labels.new ≡ raised_labels (design_in image.now)) }
{
    register_labels(image, labels);
    raise_from(image, labels, out)
}

// Raising into an area as long as the image.
fn raise_sized(image: &Image, out: &mut [u8]) -> Answer
    requires { (structure_of image.now.bytes.now ≡ Accepted 0)
        × NoParameters (design_in image.now)
        × (length out.old ≡ length image.now.bytes.now) }
    ensures { left_as result out.new ≡ raise_within_of image.now.bytes.now out.old }
{
    let count = image.design.registers;
    let mut table = [0u8; Design::REGISTERS];
    raise_within(image, &mut table[..count], out)
}

// Raising an image without parameters.
fn raise_plain(image: &Image, out: &mut [u8]) -> Answer
    requires { (structure_of image.now.bytes.now ≡ Accepted 0) × NoParameters (design_in image.now) }
    ensures { left_as result out.new ≡ raise_plain_of image.now.bytes.now out.old }
{
    if out.len() != image.bytes.len() {
        return Err(Refusal::Area.at(0));
    }
    raise_sized(image, out)
}

// Raising an image whose structure is accepted.
fn raise_structured(image: &[u8], out: &mut [u8]) -> Answer
    requires { structure_of image.now ≡ Accepted 0 }
    ensures { left_as result out.new ≡ raise_on image.now out.old }
{
    let image = Image::read(image);
    if has_parameters(&image) {
        return Err(Refusal::RaiseParameters.at(0));
    }
    raise_plain(&image, out)
}

pub fn raise(image: &[u8], out: &mut [u8]) -> Answer
    ensures { left_as result out.new ≡ raise_of image.now out.old }
{
    checker::structure(image)?;
    raise_structured(image, out)
}

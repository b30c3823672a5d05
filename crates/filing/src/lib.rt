// Filing: an image under the numbers of its filing form, and which of two images has the earlier form. Orders and
// new numbers stand in tables on the stack; each byte of a form is had from them, so that two forms are compared
// without being written.
#![tactic(auto)]

mod comparing;
mod tables;
mod writing;

ghost use Rattle.std.specs.Prelude.{◌≡◌};
ghost use Rattle.model.specs.Verdict.{verdict as verdict_of};
ghost use Rattle.model.specs.Raising.{accepts as accepts_in};
ghost use Rattle.filing_model.specs.Calls.{file as file_of, earlier as earlier_of, handed_back, handed_from};
ghost use Rattle.model.specs.Calls.{left_as};

use crate::comparing::second_earlier;
use crate::writing::file_accepted;
use filing_model::Earlier;
use model::Answer;

// The filing form of an image, over the beginning of the output area.
pub fn file(image: &[u8], out: &mut [u8]) -> Answer
    ensures { left_as result out.new ≡ file_of image.now out.old }
{
    checker::verdict(image)?;
    file_accepted(image, out)
}

// Whether an image is accepted.
fn accepts(image: &[u8]) -> bool
    ensures { result ≡ accepts_in (verdict_of image.now) }
{
    checker::verdict(image).is_ok()
}

// Which of two images has the earlier form.
pub fn which_earlier(first: &[u8], second: &[u8]) -> Earlier
    ensures { result ≡ earlier_of first.now second.now }
{
    if !accepts(first) {
        return Earlier::Neither;
    }
    if !accepts(second) {
        return Earlier::Neither;
    }
    if second_earlier(first, second) {
        return Earlier::Second;
    }
    Earlier::First
}

// The earlier of two lent images as it was lent, and an empty part of the first where either is refused.
pub fn earlier<'a>(first: &'a [u8], second: &'a [u8]) -> &'a [u8]
    ensures { (result.now ≡ handed_back first.now second.now (earlier_of first.now second.now)) × (result.ref_ptr ≡ handed_from first.entry.ref_ptr second.entry.ref_ptr (earlier_of first.now second.now)) }
{
    let which = which_earlier(first, second);
    match which {
        Earlier::First => &first[..],
        Earlier::Second => &second[..],
        Earlier::Neither => &first[..0],
    }
}

// The filing form written into an output area.
ghost use Rattle.std.specs.Prelude.{◌≤◌, ◌≡◌, length};
ghost use Rattle.design.specs.Images.{StructuredIn};
ghost use Rattle.model.specs.Rules.{Keeps};
ghost use Rattle.encoding.specs.Parts.{over};
ghost use Rattle.filing_model.specs.Filed.{filed_image};
ghost use Rattle.filing_steps.specs.Tables.{FormTablesIn};
ghost use Rattle.filing.specs.Stages.{file_on};
ghost use Rattle.model.specs.Calls.{left_as};

use crate::tables::{fill, form_byte};
use design::Design;
use design::image::Image;
use filing_steps::tables::Orders;
use model::{Answer, Refusal};

// All bytes of the form.
fn write(image: &Image, orders: &Orders, out: &mut [u8])
    requires { Keeps image.now.bytes.now
        × StructuredIn image.now
        × FormTablesIn image.now orders.now
        × (length image.now.bytes.now ≤ length out.old) }
    ensures { out.new ≡ over (filed_image image.now.bytes.now) out.old }
{
    for i in 0..image.bytes.len() {
        out[i] = form_byte(image, orders, i);
    }
}

// The form of an accepted image, over the beginning of an area with room for it.
fn write_accepted(image: &[u8], out: &mut [u8])
    requires { Keeps image.now × (length image.now ≤ length out.old) }
    ensures { out.new ≡ over (filed_image image.now) out.old }
{
    let image = Image::read(image);
    let mut orders = Orders {
        commands: [0u16; Design::COMMANDS],
        command_numbers: [0u16; Design::COMMANDS],
        expressions: [0u16; Design::EXPRESSIONS],
        expression_numbers: [0u16; Design::EXPRESSIONS],
    };
    fill(&image, &mut orders);
    write(&image, &orders, out);
}

// Filing an accepted image. The form is as long as the image.
pub fn file_accepted(image: &[u8], out: &mut [u8]) -> Answer
    requires { Keeps image.now }
    ensures { left_as result out.new ≡ file_on image.now out.old }
{
    if out.len() < image.len() {
        return Err(Refusal::OutputArea.at(0));
    }
    write_accepted(image, out);
    Ok(image.len())
}

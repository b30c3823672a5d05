// The tables of a filing: the orders of both families of nodes, and their new numbers.
ghost use Rattle.std.specs.Prelude.{◌<◌, ◌≡◌, length};
ghost use Rattle.design.specs.Images.{design_in, StructuredIn};
ghost use Rattle.model.specs.Image.{byte_at};
ghost use Rattle.model.specs.Rules.{Keeps};
ghost use Rattle.filing_model.specs.Filed.{filed_image};
ghost use Rattle.filing_steps.specs.Tables.{with_form, FormTablesIn};

use design::image::Image;
use filing_steps::bytes;
use filing_steps::numbering::number;
use filing_steps::ordering::{order_commands, order_expressions};
use filing_steps::tables::Orders;

pub fn fill(image: &Image, orders: &mut Orders)
    requires { StructuredIn image.now }
    ensures { (orders.new ≡ with_form (design_in image.now) orders.old) × FormTablesIn image.now orders.new }
{
    order_commands(image, &mut orders.commands);
    number(
        &orders.commands,
        image.design.commands,
        &mut orders.command_numbers,
    );
    order_expressions(image, &orders.commands, &mut orders.expressions);
    number(
        &orders.expressions,
        image.design.expressions,
        &mut orders.expression_numbers,
    );
}

// Byte i of the form.
pub fn form_byte(image: &Image, orders: &Orders, i: usize) -> u8
    requires { Keeps image.now.bytes.now
        × StructuredIn image.now
        × FormTablesIn image.now orders.now
        × (i < length image.now.bytes.now) }
    ensures { result ≡ byte_at (filed_image image.now.bytes.now) i }
{
    bytes::form_byte(
        image,
        &orders.commands,
        &orders.command_numbers,
        &orders.expressions,
        &orders.expression_numbers,
        i,
    )
}

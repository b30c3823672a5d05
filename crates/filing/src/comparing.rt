// The forms of two images compared byte by byte. Neither is written.
ghost use Rattle.std.specs.Prelude.{◌≡◌};
ghost use Rattle.design.specs.Images.{StructuredIn};
ghost use Rattle.model.specs.Rules.{Keeps};
ghost use Rattle.filing_model.specs.Filed.{filed_image};
ghost use Rattle.filing_model.specs.Order.{comes_before};
ghost use Rattle.filing_steps.specs.Tables.{FormTablesIn};

use crate::tables::{fill, form_byte};
use design::Design;
use design::image::Image;
use filing_steps::tables::Orders;

// Whether the form of the second image comes before that of the first, with the tables of both.
fn second_before(
    first: &Image,
    first_orders: &Orders,
    second: &Image,
    second_orders: &Orders,
) -> bool
    requires { Keeps first.now.bytes.now
        × StructuredIn first.now
        × FormTablesIn first.now first_orders.now
        × Keeps second.now.bytes.now
        × StructuredIn second.now
        × FormTablesIn second.now second_orders.now }
    ensures { result ≡ comes_before (filed_image second.now.bytes.now) (filed_image first.now.bytes.now) }
{
    for i in 0..first.bytes.len().min(second.bytes.len()) {
        let one = form_byte(first, first_orders, i);
        let other = form_byte(second, second_orders, i);
        if other < one {
            return true;
        }
        if one < other {
            return false;
        }
    }
    second.bytes.len() < first.bytes.len()
}

// The same, with the tables of the first image.
fn second_before_first(first: &Image, first_orders: &Orders, second: &[u8]) -> bool
    requires { Keeps first.now.bytes.now
        × StructuredIn first.now
        × FormTablesIn first.now first_orders.now
        × Keeps second.now }
    ensures { result ≡ comes_before (filed_image second.now) (filed_image first.now.bytes.now) }
{
    let second = Image::read(second);
    let mut orders = Orders {
        commands: [0u16; Design::COMMANDS],
        command_numbers: [0u16; Design::COMMANDS],
        expressions: [0u16; Design::EXPRESSIONS],
        expression_numbers: [0u16; Design::EXPRESSIONS],
    };
    fill(&second, &mut orders);
    second_before(first, first_orders, &second, &orders)
}

// Whether the form of the second of two accepted images comes before that of the first.
pub fn second_earlier(first: &[u8], second: &[u8]) -> bool
    requires { Keeps first.now × Keeps second.now }
    ensures { result ≡ comes_before (filed_image second.now) (filed_image first.now) }
{
    let first = Image::read(first);
    let mut orders = Orders {
        commands: [0u16; Design::COMMANDS],
        command_numbers: [0u16; Design::COMMANDS],
        expressions: [0u16; Design::EXPRESSIONS],
        expression_numbers: [0u16; Design::EXPRESSIONS],
    };
    fill(&first, &mut orders);
    second_before_first(&first, &orders, second)
}

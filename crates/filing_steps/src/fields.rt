// The fields of a node under new numbers. A field is numbered as it stands in a record: a is 1, b is 2, c is 3.
ghost use Rattle.std.specs.Prelude.{◌≤◌, ◌<◌, ◌≡◌, length};
ghost use Rattle.design.specs.Images.{design_in, StructuredIn, CommandIn, ExpressionIn};
ghost use Rattle.model.specs.Image.{command_at, expression_at};
ghost use Rattle.model.specs.Kinds.{assigns, branches, command_kind};
ghost use Rattle.design.specs.Records.{node_in, node_end};
ghost use Rattle.filing_model.specs.Filed.{command_order, expression_order, command_filed, expression_filed};
ghost use Rattle.filing_steps.specs.Tables.{Numbered};
ghost use Rattle.filing_steps.specs.Fields.{field_of, with_pair};

use design::Design;
use design::image::Image;
use encoding::tables::new_number;

// Field f of node n as it stands.
fn field(image: &[u8], at: usize, n: usize, f: usize) -> usize
    requires { node_end at n ≤ length image.now }
    ensures { (result ≡ field_of f (node_in image.now at n)) × (result < 65536) }
{
    match f {
        1 => Design::part_a(image, at, n),
        2 => Design::part_b(image, at, n),
        _ => Design::part_c(image, at, n),
    }
}

// Field f of a node whose parts are a and b, in the family of the table. Sequences and operations are such.
fn pair_field(image: &[u8], at: usize, numbers: &[u16], n: usize, f: usize) -> usize
    requires { (node_end at n ≤ length image.now)
        × ((node_in image.now at n).a < length numbers.now)
        × ((node_in image.now at n).b < length numbers.now)
        × (1 ≤ f)
        × (f ≤ 3) }
    ensures { result ≡ field_of f (with_pair numbers.now (node_in image.now at n)) }
{
    let old = field(image, at, n, f);
    if f == 3 {
        return old;
    }
    new_number(numbers, old)
}

// Field f of an assignment, whose expression is a.
fn assignment_field(image: &Image, expression_numbers: &[u16], n: usize, f: usize) -> usize
    requires { StructuredIn image.now
        × CommandIn image.now n
        × Numbered (expression_order (design_in image.now)) expression_numbers.now
        × (command_kind (command_at (design_in image.now) n).kind ≡ assigns) }
    ensures { result ≡ field_of f (command_filed (design_in image.now) (command_at (design_in image.now) n)) }
{
    if f == 1 {
        let a = image.command_a(n);
        return new_number(expression_numbers, a);
    }
    field(image.bytes, image.design.commands_at, n, f)
}

// Field f of an if, whose expression is a and whose parts are b and c.
fn branch_field(
    image: &Image,
    command_numbers: &[u16],
    expression_numbers: &[u16],
    n: usize,
    f: usize,
) -> usize
    requires { StructuredIn image.now
        × CommandIn image.now n
        × Numbered (command_order (design_in image.now)) command_numbers.now
        × Numbered (expression_order (design_in image.now)) expression_numbers.now
        × (command_kind (command_at (design_in image.now) n).kind ≡ branches)
        × (1 ≤ f)
        × (f ≤ 3) }
    ensures { result ≡ field_of f (command_filed (design_in image.now) (command_at (design_in image.now) n)) }
{
    let old = field(image.bytes, image.design.commands_at, n, f);
    if f == 1 {
        return new_number(expression_numbers, old);
    }
    new_number(command_numbers, old)
}

// Field f of command n.
pub fn command_field(
    image: &Image,
    command_numbers: &[u16],
    expression_numbers: &[u16],
    n: usize,
    f: usize,
) -> usize
    requires { StructuredIn image.now
        × CommandIn image.now n
        × Numbered (command_order (design_in image.now)) command_numbers.now
        × Numbered (expression_order (design_in image.now)) expression_numbers.now
        × (1 ≤ f)
        × (f ≤ 3) }
    ensures { result ≡ field_of f (command_filed (design_in image.now) (command_at (design_in image.now) n)) }
{
    let kind = image.command_kind(n);
    match kind {
        1 => assignment_field(image, expression_numbers, n, f),
        2 => pair_field(image.bytes, image.design.commands_at, command_numbers, n, f),
        5 => branch_field(image, command_numbers, expression_numbers, n, f),
        _ => field(image.bytes, image.design.commands_at, n, f),
    }
}

// Field f of expression e. A kind of 2 or more is an operation.
pub fn expression_field(image: &Image, expression_numbers: &[u16], e: usize, f: usize) -> usize
    requires { StructuredIn image.now
        × ExpressionIn image.now e
        × Numbered (expression_order (design_in image.now)) expression_numbers.now
        × (1 ≤ f)
        × (f ≤ 3) }
    ensures { result ≡ field_of f (expression_filed (design_in image.now) (expression_at (design_in image.now) e)) }
{
    let kind = image.expression_kind(e);
    match kind {
        0 | 1 => field(image.bytes, image.design.expressions_at, e, f),
        2..=11 => pair_field(
            image.bytes,
            image.design.expressions_at,
            expression_numbers,
            e,
            f,
        ),
        _ => field(image.bytes, image.design.expressions_at, e, f),
    }
}

// The bytes of the filing form, each by itself: so the form can be written, and compared without being written.
ghost use Rattle.std.specs.Prelude.{◌+◌, ◌*◌, ◌/◌, ◌%◌, ◌≤◌, ◌<◌, ◌≡◌, length};
ghost use Rattle.design.specs.Images.{design_in, StructuredIn};
ghost use Rattle.model.specs.Limits.{state_length, node_length};
ghost use Rattle.model.specs.Image.{States, byte_at, offset, state_at, command_at, expression_at};
ghost use Rattle.model.specs.Rules.{Keeps};
ghost use Rattle.design.specs.Records.{node_end};
ghost use Rattle.encoding.specs.Encoding.{word16_bytes, state_bytes, node_bytes};
ghost use Rattle.filing_model.specs.Filed.{command_order, expression_order, filed, filed_image};
ghost use Rattle.filing_steps.specs.Tables.{Ordered, Numbered, FormTables};

use crate::fields::{command_field, expression_field};
use design::Design;
use design::image::Image;
use encoding::tables::new_number;

// Byte o of a field of 16 bits, from its start or from the start of its record, in which fields stand at even places.
fn field_byte(n: usize, o: usize) -> u8
    ensures { result ≡ byte_at (word16_bytes n) (o % 2) }
{
    if o % 2 == 0 {
        return (n % 256) as u8;
    }
    (n / 256 % 256) as u8
}

// The new number of the command of state s.
fn new_body(image: &Image, command_numbers: &[u16], s: usize) -> usize
    requires { StructuredIn image.now
        × Numbered (command_order (design_in image.now)) command_numbers.now
        × (s < image.now.design.states) }
    ensures { (result ≡ (state_at (filed (design_in image.now)) s).command) × (result < 65536) }
{
    let old = image.state_command(s);
    new_number(command_numbers, old)
}

// Byte j of the states. The command of a state is bytes 2 and 3 of its record; all others are as they stand.
fn state_byte(image: &Image, command_numbers: &[u16], j: usize) -> u8
    requires { StructuredIn image.now
        × Numbered (command_order (design_in image.now)) command_numbers.now
        × (j < state_length * image.now.design.states) }
    ensures { result ≡ byte_at (state_bytes (state_at (filed (design_in image.now)) (j / state_length))) (j % state_length) }
{
    let s = j / Design::STATE_LENGTH;
    let o = j % Design::STATE_LENGTH;
    if o / 2 == 1 {
        let body = new_body(image, command_numbers, s);
        return field_byte(body, o);
    }
    image.bytes[image.design.states_at + j]
}

// Byte o of node n as it stands, where nodes begin at a place.
fn node_byte(image: &[u8], at: usize, n: usize, o: usize) -> u8
    requires { (node_end at n ≤ length image.now) × (o < node_length) }
    ensures { result ≡ byte_at image.now (at + node_length * n + o) }
{
    image[at + Design::NODE_LENGTH * n + o]
}

// Byte j of the commands.
fn command_byte(
    image: &Image,
    commands: &[u16],
    command_numbers: &[u16],
    expression_numbers: &[u16],
    j: usize,
) -> u8
    requires { StructuredIn image.now
        × Ordered (command_order (design_in image.now)) commands.now
        × Numbered (command_order (design_in image.now)) command_numbers.now
        × Numbered (expression_order (design_in image.now)) expression_numbers.now
        × (j < node_length * image.now.design.commands) }
    ensures { result ≡ byte_at (node_bytes (command_at (filed (design_in image.now)) (j / node_length))) (j % node_length) }
{
    let n = new_number(commands, j / Design::NODE_LENGTH);
    let o = j % Design::NODE_LENGTH;
    if o < 2 {
        return node_byte(image.bytes, image.design.commands_at, n, o);
    }
    let field = command_field(image, command_numbers, expression_numbers, n, o / 2);
    field_byte(field, o)
}

// Byte j of the expressions. Not one function with `command_byte`: what gives a field would be a closure, of which the
// contract says again what `command_field` and `expression_field` promise.
fn expression_byte(image: &Image, expressions: &[u16], expression_numbers: &[u16], j: usize) -> u8
    requires { StructuredIn image.now
        × Ordered (expression_order (design_in image.now)) expressions.now
        × Numbered (expression_order (design_in image.now)) expression_numbers.now
        × (j < node_length * image.now.design.expressions) }
    ensures { result ≡ byte_at (node_bytes (expression_at (filed (design_in image.now)) (j / node_length))) (j % node_length) }
{
    let e = new_number(expressions, j / Design::NODE_LENGTH);
    let o = j % Design::NODE_LENGTH;
    if o < 2 {
        return node_byte(image.bytes, image.design.expressions_at, e, o);
    }
    let field = expression_field(image, expression_numbers, e, o / 2);
    field_byte(field, o)
}

// Byte i of the form in front of the states.
fn front_byte(image: &[u8], i: usize) -> u8
    requires { Keeps image.now × (i < offset image.now States) }
    ensures { result ≡ byte_at (filed_image image.now) i }
{
    image[i]
}

// Byte i of the form. Up to the states it is the image's.
pub fn form_byte(
    image: &Image,
    commands: &[u16],
    command_numbers: &[u16],
    expressions: &[u16],
    expression_numbers: &[u16],
    i: usize,
) -> u8
    requires { Keeps image.now.bytes.now
        × StructuredIn image.now
        × FormTables (design_in image.now) commands.now command_numbers.now expressions.now expression_numbers.now
        × (i < length image.now.bytes.now) }
    ensures { result ≡ byte_at (filed_image image.now.bytes.now) i }
{
    if i < image.design.states_at {
        return front_byte(image.bytes, i);
    }
    if i < image.design.commands_at {
        return state_byte(image, command_numbers, i - image.design.states_at);
    }
    if i < image.design.expressions_at {
        return command_byte(
            image,
            commands,
            command_numbers,
            expression_numbers,
            i - image.design.commands_at,
        );
    }
    expression_byte(
        image,
        expressions,
        expression_numbers,
        i - image.design.expressions_at,
    )
}

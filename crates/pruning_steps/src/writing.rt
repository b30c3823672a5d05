// Records that stay, written under new numbers.
ghost use Rattle.std.specs.Prelude.{◌+◌, ◌*◌, ◌≤◌, ◌<◌, ◌≡◌, length};
ghost use Rattle.design.specs.Images.{design_in, StructuredIn, CommandIn, ExpressionIn};
ghost use Rattle.model.specs.Limits.{state_length, node_length};
ghost use Rattle.model.specs.Image.{state_at, command_at, expression_at};
ghost use Rattle.design.specs.Records.{state_in};
ghost use Rattle.encoding.specs.Encoding.{state_bytes, node_bytes, records_bytes};
ghost use Rattle.encoding.specs.Parts.{overwritten_at};
ghost use Rattle.renumbering.specs.Renumbering.{with_parts};
ghost use Rattle.pruning_model.specs.Reached.{reached as reached_in};
ghost use Rattle.pruning_model.specs.Pruned.{closed_up, command_stays, expression_stays, pruned};
ghost use Rattle.pruning_model.specs.Pruned.{state_written, command_written, expression_written};
ghost use Rattle.pruning_steps.specs.Marks.{Marked, Numbered};

use design::Design;
use design::image::Image;
use encoding::tables::new_number;
use encoding::writers::{put_node, put_state};

// State s with another parent and another command.
fn write_fields(image: &Image, s: usize, parent: usize, command: usize, at: usize, out: &mut [u8])
    requires { (s < image.now.design.states) × (parent < 256) × (at + state_length ≤ length out.old) }
    ensures { out.new ≡ overwritten_at at (state_bytes (with_parts parent command (state_in image.now.bytes.now image.now.design.states_at s))) out.old }
{
    put_state(
        out,
        at,
        parent,
        image.state_label(s),
        command,
        image.parameters(s),
        image.first_lower(s),
        image.first_upper(s),
        image.second_lower(s),
        image.second_upper(s),
    );
}

// State s, at a place.
fn write_state(
    image: &Image,
    numbers: &[u16],
    command_numbers: &[u16],
    s: usize,
    at: usize,
    out: &mut [u8],
)
    requires { StructuredIn image.now
        × Numbered (reached_in (design_in image.now)) image.now.design.states numbers.now
        × Numbered (command_stays (design_in image.now)) image.now.design.commands command_numbers.now
        × (s < image.now.design.states)
        × (at + state_length ≤ length out.old) }
    ensures { out.new ≡ overwritten_at at (state_bytes (state_written (design_in image.now) (state_at (design_in image.now) s))) out.old }
{
    let old_parent = image.parent(s);
    let old_command = image.state_command(s);
    let parent = new_number(numbers, old_parent);
    let command = new_number(command_numbers, old_command);
    write_fields(image, s, parent, command, at, out);
}

// The states that are reached, one behind the other. This loop and those over commands and over expressions are not one:
// what writes a record would be a closure, of which the contract says again what `write_state` and its like promise.
pub fn write_states(
    image: &Image,
    reached: &[u8],
    numbers: &[u16],
    command_numbers: &[u16],
    at: usize,
    out: &mut [u8],
)
    requires { StructuredIn image.now
        × Marked (reached_in (design_in image.now)) image.now.design.states reached.now
        × Numbered (reached_in (design_in image.now)) image.now.design.states numbers.now
        × Numbered (command_stays (design_in image.now)) image.now.design.commands command_numbers.now
        × (at + state_length * closed_up (reached_in (design_in image.now)) image.now.design.states ≤ length out.old) }
    ensures { out.new ≡ overwritten_at at (records_bytes state_bytes (pruned (design_in image.now)).states) out.old }
{
    let mut place = at;
    for s in 0..image.design.states {
        if reached[s] == 1 {
            write_state(image, numbers, command_numbers, s, place, out);
            place += Design::STATE_LENGTH;
        }
    }
}

// Command n, at a place.
fn write_command(
    image: &Image,
    state_numbers: &[u16],
    numbers: &[u16],
    expression_numbers: &[u16],
    n: usize,
    at: usize,
    out: &mut [u8],
)
    requires { CommandIn image.now n
        × Numbered (reached_in (design_in image.now)) image.now.design.states state_numbers.now
        × Numbered (command_stays (design_in image.now)) image.now.design.commands numbers.now
        × Numbered (expression_stays (design_in image.now)) image.now.design.expressions expression_numbers.now
        × (at + node_length ≤ length out.old) }
    ensures { out.new ≡ overwritten_at at (node_bytes (command_written (design_in image.now) (command_at (design_in image.now) n))) out.old }
{
    let kind = image.command_kind(n);
    let number = usize::from(kind);
    let item = image.command_item(n);
    let a = image.command_a(n);
    let b = image.command_b(n);
    let c = image.command_c(n);
    match kind {
        1 => {
            let value = new_number(expression_numbers, a);
            put_node(out, at, number, item, value, b, c);
        }
        2 => {
            let first = new_number(numbers, a);
            let second = new_number(numbers, b);
            put_node(out, at, number, item, first, second, c);
        }
        4 => {
            let target = new_number(state_numbers, item);
            put_node(out, at, number, target, a, b, c);
        }
        5 => {
            let value = new_number(expression_numbers, a);
            let first = new_number(numbers, b);
            let second = new_number(numbers, c);
            put_node(out, at, number, item, value, first, second);
        }
        _ => put_node(out, at, number, item, a, b, c),
    }
}

// The commands that stay, one behind the other.
pub fn write_commands(
    image: &Image,
    commands: &[u8],
    state_numbers: &[u16],
    numbers: &[u16],
    expression_numbers: &[u16],
    at: usize,
    out: &mut [u8],
)
    requires { StructuredIn image.now
        × Marked (command_stays (design_in image.now)) image.now.design.commands commands.now
        × Numbered (reached_in (design_in image.now)) image.now.design.states state_numbers.now
        × Numbered (command_stays (design_in image.now)) image.now.design.commands numbers.now
        × Numbered (expression_stays (design_in image.now)) image.now.design.expressions expression_numbers.now
        × (at + node_length * closed_up (command_stays (design_in image.now)) image.now.design.commands ≤ length out.old) }
    ensures { out.new ≡ overwritten_at at (records_bytes node_bytes (pruned (design_in image.now)).commands) out.old }
{
    let mut place = at;
    for n in 0..image.design.commands {
        if commands[n] == 1 {
            write_command(
                image,
                state_numbers,
                numbers,
                expression_numbers,
                n,
                place,
                out,
            );
            place += Design::NODE_LENGTH;
        }
    }
}

// Expression n, at a place.
fn write_expression(image: &Image, numbers: &[u16], n: usize, at: usize, out: &mut [u8])
    requires { ExpressionIn image.now n
        × Numbered (expression_stays (design_in image.now)) image.now.design.expressions numbers.now
        × (at + node_length ≤ length out.old) }
    ensures { out.new ≡ overwritten_at at (node_bytes (expression_written (design_in image.now) (expression_at (design_in image.now) n))) out.old }
{
    let kind = image.expression_kind(n);
    let number = usize::from(kind);
    let item = image.expression_item(n);
    let a = image.expression_a(n);
    let b = image.expression_b(n);
    let c = image.expression_c(n);
    match kind {
        2..=11 => {
            let first = new_number(numbers, a);
            let second = new_number(numbers, b);
            put_node(out, at, number, item, first, second, c);
        }
        _ => put_node(out, at, number, item, a, b, c),
    }
}

// The expressions that stay, one behind the other.
pub fn write_expressions(
    image: &Image,
    expressions: &[u8],
    numbers: &[u16],
    at: usize,
    out: &mut [u8],
)
    requires { StructuredIn image.now
        × Marked (expression_stays (design_in image.now)) image.now.design.expressions expressions.now
        × Numbered (expression_stays (design_in image.now)) image.now.design.expressions numbers.now
        × (at + node_length * closed_up (expression_stays (design_in image.now)) image.now.design.expressions ≤ length out.old) }
    ensures { out.new ≡ overwritten_at at (records_bytes node_bytes (pruned (design_in image.now)).expressions) out.old }
{
    let mut place = at;
    for n in 0..image.design.expressions {
        if expressions[n] == 1 {
            write_expression(image, numbers, n, place, out);
            place += Design::NODE_LENGTH;
        }
    }
}

// The order of the filing form: tables of the old numbers of commands and of expressions, in their new order.
ghost use Rattle.std.specs.Prelude.{◌+◌, ◌≤◌, ◌<◌, ◌≡◌, [], ◌∷◌, length};
ghost use Rattle.design.specs.Images.{design_in, StructuredIn, CommandIn};
ghost use Rattle.model.specs.Nodes.{parts_of, operands_of};
ghost use Rattle.encoding.specs.Parts.{overwritten_at};
ghost use Rattle.filing_model.specs.Filed.{parts_first, command_order, value_order, expression_order};
ghost use Rattle.filing_steps.specs.Tables.{Ordered};
ghost use Rattle.filing_steps.specs.Ordering.{PutFrom, OrderingCommandIn, OrderingExpressionIn};

use design::image::Image;

// Number n at place k; the place behind it.
fn place(order: &mut [u16], k: usize, n: usize) -> usize
    requires { (k < length order.old) × (n < 65536) }
    ensures { PutFrom (n ∷ []) k order.old result order.new }
{
    order[k] = n as u16;
    k + 1
}

// Command n and its parts from place k on, parts before the whole; the place behind them. By recursion over parts.
fn order_command(image: &Image, n: usize, order: &mut [u16], k: usize) -> usize
    requires { OrderingCommandIn image.now n order.old k }
    ensures { PutFrom (parts_first (parts_of (design_in image.now)) n) k order.old result order.new }
{
    let kind = image.command_kind(n);
    let a = image.command_a(n);
    let b = image.command_b(n);
    let c = image.command_c(n);
    match kind {
        2 => {
            let second = order_command(image, a, order, k);
            let whole = order_command(image, b, order, second);
            place(order, whole, n)
        }
        5 => {
            let second = order_command(image, b, order, k);
            let whole = order_command(image, c, order, second);
            place(order, whole, n)
        }
        _ => place(order, k, n),
    }
}

// The commands of all bodies, state by state.
pub fn order_commands(image: &Image, order: &mut [u16])
    requires { StructuredIn image.now × (image.now.design.commands ≤ length order.old) }
    ensures { (order.new ≡ overwritten_at 0 (command_order (design_in image.now)) order.old) × Ordered (command_order (design_in image.now)) order.new }
{
    let mut k = 0;
    for s in 0..image.design.states {
        let command = image.state_command(s);
        k = order_command(image, command, order, k);
    }
}

// Expression e and its parts from place k on, likewise. Constants and reads have no parts. Not one recursion with
// `order_command`: it would ask at every node of which family it is, and parts are other fields under other kinds.
fn order_expression(image: &Image, e: usize, order: &mut [u16], k: usize) -> usize
    requires { OrderingExpressionIn image.now e order.old k }
    ensures { PutFrom (parts_first (operands_of (design_in image.now)) e) k order.old result order.new }
{
    let kind = image.expression_kind(e);
    let a = image.expression_a(e);
    let b = image.expression_b(e);
    match kind {
        0 | 1 => place(order, k, e),
        2..=11 => {
            let second = order_expression(image, a, order, k);
            let whole = order_expression(image, b, order, second);
            place(order, whole, e)
        }
        _ => place(order, k, e),
    }
}

// The expressions of command n from place k on; the place behind them.
fn order_value(image: &Image, n: usize, order: &mut [u16], k: usize) -> usize
    requires { StructuredIn image.now
        × CommandIn image.now n
        × (k + length (value_order (design_in image.now) n) ≤ length order.old) }
    ensures { PutFrom (value_order (design_in image.now) n) k order.old result order.new }
{
    let kind = image.command_kind(n);
    let a = image.command_a(n);
    match kind {
        1 | 5 => order_expression(image, a, order, k),
        _ => k,
    }
}

// All expressions, in the order of the commands that use them.
pub fn order_expressions(image: &Image, commands: &[u16], order: &mut [u16])
    requires { StructuredIn image.now
        × Ordered (command_order (design_in image.now)) commands.now
        × (image.now.design.expressions ≤ length order.old) }
    ensures { (order.new ≡ overwritten_at 0 (expression_order (design_in image.now)) order.old) × Ordered (expression_order (design_in image.now)) order.new }
{
    let mut k = 0;
    for &n in &commands[..image.design.commands] {
        k = order_value(image, usize::from(n), order, k);
    }
}

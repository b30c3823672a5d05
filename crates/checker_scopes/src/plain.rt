// A plain design has no parameter, names none, gives none, and assigns no port: refusals 16 and 19 find
// nothing in it. One look at each record spares most designs the passes for them.
ghost use Rattle.std.specs.Prelude.{◌<◌, ◌≡◌, length};
ghost use Rattle.model.specs.Indices.{all_below};
ghost use Rattle.design.specs.Images.{design_in, RecordsIn};
ghost use Rattle.checker_scopes.specs.Plain.{plain_state as plain_state_of, is_inner, plain_command as plain_command_of, plain_expression as plain_expression_of, plain_design};

use design::Design;
use design::image::Image;

// State s has no parameter and no bounds, and its label byte is a label's.
fn plain_state(image: &Image, s: usize) -> bool
    requires { s < image.now.design.states }
    ensures { result ≡ plain_state_of (design_in image.now) s }
{
    let own = image.parameters(s);
    let first_lower = image.first_lower(s);
    let first_upper = image.first_upper(s);
    let second_lower = image.second_lower(s);
    let second_upper = image.second_upper(s);
    let label = image.state_label(s);
    (own + first_lower + first_upper + second_lower + second_upper == 0)
        & (label < Design::PARAMETER_LABEL)
}

fn plain_states(image: &Image) -> bool
    ensures { result ≡ all_below (plain_state_of (design_in image.now)) (length (design_in image.now).states) }
{
    (0..image.design.states).all(|s| plain_state(image, s))
}

// Register byte r names a register, which is no port.
fn inner(image: &Image, r: usize) -> bool
    ensures { result ≡ is_inner (design_in image.now) r }
{
    if image.design.registers <= r {
        return false;
    }
    image.register_kind(r) != 1
}

// Command n assigns an inner register, or is a goto without arguments, or neither assigns nor goes.
fn plain_command(image: &Image, n: usize) -> bool
    requires { RecordsIn image.now × (n < image.now.design.commands) }
    ensures { result ≡ plain_command_of (design_in image.now) n }
{
    let kind = image.command_kind(n);
    match kind {
        1 => {
            let r = image.command_item(n);
            inner(image, r)
        }
        4 => {
            let a = image.command_a(n);
            let b = image.command_b(n);
            (a == 0) & (b == 0)
        }
        _ => true,
    }
}

fn plain_commands(image: &Image) -> bool
    requires { RecordsIn image.now }
    ensures { result ≡ all_below (plain_command_of (design_in image.now)) (length (design_in image.now).commands) }
{
    (0..image.design.commands).all(|n| plain_command(image, n))
}

// Expression e names no parameter. Where its byte names no register, its rule keeps it 0.
fn plain_expression(image: &Image, e: usize) -> bool
    requires { RecordsIn image.now × (e < image.now.design.expressions) }
    ensures { result ≡ plain_expression_of (design_in image.now) e }
{
    image.expression_item(e) < Design::PARAMETER_REGISTER
}

fn plain_expressions(image: &Image) -> bool
    requires { RecordsIn image.now }
    ensures { result ≡ all_below (plain_expression_of (design_in image.now)) (length (design_in image.now).expressions) }
{
    (0..image.design.expressions).all(|e| plain_expression(image, e))
}

pub fn plain(image: &Image) -> bool
    requires { RecordsIn image.now }
    ensures { result ≡ plain_design (design_in image.now) }
{
    plain_states(image) && plain_commands(image) && plain_expressions(image)
}

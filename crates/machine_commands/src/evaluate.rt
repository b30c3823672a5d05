// The value of an expression, by recursion over parts.
ghost use Rattle.std.specs.Prelude.{◌≡◌, ◌<◌, ◌≤◌, length};
ghost use Rattle.design.specs.Images.{design_in};
ghost use Rattle.design.specs.Records.{node_in, node_end};
ghost use Rattle.model.specs.Kinds.{Operation, operates, expression_kind};
ghost use Rattle.model.specs.Trees.{expr_of};
ghost use Rattle.model.specs.Values.{apply as apply_of};
ghost use Rattle.model.specs.Bindings.{named as named_of, expr_with};
ghost use Rattle.model.specs.Machine.{eval};
ghost use Rattle.machine_commands.specs.Executions.{EvaluatingIn, bound_of, values_in, expression_kind_in};

use super::signed;
use design::Design;
use design::image::Image;
use design::words::word;

// The register that a register byte names: a byte below the first parameter's is a register's number.
pub fn named(bound: usize, r: usize) -> usize
    ensures { result ≡ named_of (bound_of bound) r }
{
    if r < Design::PARAMETER_REGISTER {
        return r;
    }
    match r - Design::PARAMETER_REGISTER {
        0 => bound % 256,
        1 => bound / 256,
        _ => 0,
    }
}

// The register that node n names.
pub fn item_named(image: &[u8], at: usize, bound: usize, n: usize) -> usize
    requires { node_end at n ≤ length image.now }
    ensures { result ≡ named_of (bound_of bound) (node_in image.now at n).item }
{
    named(bound, Design::item(image, at, n))
}

// The operation of a kind, on two values.
fn apply(kind: u8, x: u32, y: u32) -> u32
    requires { (2 ≤ kind) × (kind ≤ 11) }
    ensures { (o : Operation) → expression_kind kind ≡ operates o → result ≡ apply_of o x y }
{
    match kind {
        2 => x.wrapping_add(y),
        3 => x.wrapping_sub(y),
        4 => x & y,
        5 => x | y,
        6 => x ^ y,
        7 => u32::from(x == y),
        8 => u32::from(x < y),
        9 => u32::from(signed::signed_less(x, y)),
        10 => signed::shift_right(x, y),
        _ => signed::divide(x, y),
    }
}

// The value of a constant or a register.
fn leaf_value(image: &Image, registers: &[u8], bound: usize, e: usize) -> u32
    requires { EvaluatingIn image.now registers.now bound e × (expression_kind_in image.now e < 2) }
    ensures { result ≡ eval (values_in (design_in image.now) registers.now) (expr_with (bound_of bound) (expr_of (design_in image.now) e)) }
{
    match image.expression_kind(e) {
        1 => {
            let r = item_named(image.bytes, image.design.expressions_at, bound, e);
            word(registers, r)
        }
        _ => image.constant(e),
    }
}

// The value of an operation. A part that is a constant or a register costs no call. The bound registers are
// packed in one number: a further argument costs time.
fn operation_value(image: &Image, registers: &[u8], bound: usize, e: usize) -> u32
    requires { EvaluatingIn image.now registers.now bound e × (2 ≤ expression_kind_in image.now e) }
    ensures { result ≡ eval (values_in (design_in image.now) registers.now) (expr_with (bound_of bound) (expr_of (design_in image.now) e)) }
{
    let kind = image.expression_kind(e);
    let a = image.expression_a(e);
    let b = image.expression_b(e);
    let x = match image.expression_kind(a) {
        2..=11 => operation_value(image, registers, bound, a),
        _ => leaf_value(image, registers, bound, a),
    };
    let y = match image.expression_kind(b) {
        2..=11 => operation_value(image, registers, bound, b),
        _ => leaf_value(image, registers, bound, b),
    };
    apply(kind, x, y)
}

// The value of expression e over the registers, with the registers bound to the parameters in scope.
pub fn evaluate(image: &Image, registers: &[u8], bound: usize, e: usize) -> u32
    requires { EvaluatingIn image.now registers.now bound e }
    ensures { result ≡ eval (values_in (design_in image.now) registers.now) (expr_with (bound_of bound) (expr_of (design_in image.now) e)) }
{
    match image.expression_kind(e) {
        2..=11 => operation_value(image, registers, bound, e),
        _ => leaf_value(image, registers, bound, e),
    }
}

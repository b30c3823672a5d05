// Refusal 5: a node is judged by its record. A match on the kind byte decides what the fields hold.
ghost use Rattle.std.specs.Prelude.{◌+◌, ◌<◌, ◌≡◌, ◌&&◌, ◌||◌, leb, ltb};
ghost use Rattle.model.specs.Limits.{parameter_register, binding_length};
ghost use Rattle.model.specs.Kinds.{command_kept as command_kept_of, expression_kept as expression_kept_of};
ghost use Rattle.design.specs.Images.{design_in};

use design::Design;
use design::image::Image;

// A register byte: a register's number, or a byte that names a parameter. Refusal 19 judges whether
// there is one.
fn names_register(design: Design, r: usize) -> bool
    ensures { result ≡ (ltb r design.registers || (leb parameter_register r && ltb r (parameter_register + binding_length))) }
{
    (r < design.registers)
        | ((Design::PARAMETER_REGISTER <= r)
            & (r < Design::PARAMETER_REGISTER + Design::BINDING_LENGTH))
}

// Command n has a kind, and its fields hold what the kind asks for. The arguments of a goto, in a and b,
// are for refusals 16 and 19.
pub fn command_kept(image: &Image, n: usize) -> bool
    requires { n < image.now.design.commands }
    ensures { result ≡ command_kept_of (design_in image.now) n }
{
    let kind = image.command_kind(n);
    let item = image.command_item(n);
    let a = image.command_a(n);
    let b = image.command_b(n);
    let c = image.command_c(n);
    match kind {
        0 | 3 => (item == 0) & (a == 0) & (b == 0) & (c == 0),
        1 => names_register(image.design, item)
            & (a < image.design.expressions)
            & (b == 0)
            & (c == 0),
        2 => (item == 0) & (a < n) & (b < n) & (c == 0),
        4 => (item < image.design.states) & (c == 0),
        5 => (item == 0) & (a < image.design.expressions) & (b < n) & (c < n),
        _ => false,
    }
}

// Expression n has a kind, and its fields hold what the kind asks for.
pub fn expression_kept(image: &Image, n: usize) -> bool
    requires { n < image.now.design.expressions }
    ensures { result ≡ expression_kept_of (design_in image.now) n }
{
    let kind = image.expression_kind(n);
    let item = image.expression_item(n);
    let a = image.expression_a(n);
    let b = image.expression_b(n);
    let c = image.expression_c(n);
    match kind {
        0 => (item == 0) & (a == 0),
        1 => names_register(image.design, item) & (a == 0) & (b == 0) & (c == 0),
        2..=11 => (item == 0) & (a < n) & (b < n) & (c == 0),
        _ => false,
    }
}

// Refusal 6: the uses of every node of a family are counted in a table, and a pass looks for one that is
// not used exactly once. A count stops at 2.
ghost use Rattle.std.specs.Prelude.{◌+◌, ◌<◌, ◌≤◌, min, ◌≡◌, [], ◌∷◌, eqb, length, get_or};
ghost use Rattle.model.specs.Indices.{lowest_failing, join_below};
ghost use Rattle.model.specs.Nodes.{command_of, parts_of, values_of, operands_of};
ghost use Rattle.design.specs.Images.{design_in, CommandIn, ExpressionIn};
ghost use Rattle.design.specs.Kept.{StatesKept};
ghost use Rattle.checker_nodes.specs.Tables.{count_use, count_uses};

use design::image::Image;

// The greatest count.
const MANY: u8 = 2;

// One more than a number, or the most where it has come to that.
pub fn one_more(number: u8, most: u8) -> u8
    ensures { result ≡ min most (number + 1) }
{
    if number < most { number + 1 } else { most }
}

// One more use of node k.
fn use_node(table: &mut [u8], k: usize)
    requires { k < length table.old }
    ensures { table.new ≡ count_use table.old k }
{
    let uses = one_more(table[k], MANY);
    table[k] = uses;
}

// One more use of each of two nodes.
fn use_both(table: &mut [u8], a: usize, b: usize)
    requires { (a < length table.old) × (b < length table.old) }
    ensures { table.new ≡ count_uses table.old (a ∷ b ∷ []) }
{
    use_node(table, a);
    use_node(table, b);
}

// Command n uses the commands that are its parts.
pub fn use_parts(table: &mut [u8], image: &Image, n: usize)
    requires { CommandIn image.now n × (image.now.design.commands ≤ length table.old) }
    ensures { table.new ≡ count_uses table.old (parts_of (design_in image.now) n) }
{
    let kind = image.command_kind(n);
    let a = image.command_a(n);
    let b = image.command_b(n);
    let c = image.command_c(n);
    match kind {
        2 => use_both(table, a, b),
        5 => use_both(table, b, c),
        _ => {}
    }
}

// Command n uses the expression that is its part.
pub fn use_command_expression(table: &mut [u8], image: &Image, n: usize)
    requires { CommandIn image.now n × (image.now.design.expressions ≤ length table.old) }
    ensures { table.new ≡ count_uses table.old (values_of (design_in image.now) n) }
{
    let kind = image.command_kind(n);
    let a = image.command_a(n);
    match kind {
        1 | 5 => use_node(table, a),
        _ => {}
    }
}

// Expression n uses the expressions that are its parts. Not one function with `use_parts`: they share no
// more than `use_both`, as parts are other fields under other kinds.
pub fn use_operands(table: &mut [u8], image: &Image, n: usize)
    requires { ExpressionIn image.now n × (image.now.design.expressions ≤ length table.old) }
    ensures { table.new ≡ count_uses table.old (operands_of (design_in image.now) n) }
{
    let kind = image.expression_kind(n);
    let a = image.expression_a(n);
    let b = image.expression_b(n);
    match kind {
        2..=11 => use_both(table, a, b),
        _ => {}
    }
}

// Every state uses its command.
pub fn use_bodies(table: &mut [u8], image: &Image)
    requires { StatesKept (design_in image.now)
        × (image.now.design.commands ≤ length table.old) }
    ensures { table.new ≡ count_uses table.old (join_below (command_of (design_in image.now)) (length (design_in image.now).states)) }
{
    for s in 0..image.design.states {
        let command = image.state_command(s);
        use_node(table, command);
    }
}

// The lowest of so many nodes that a table of counts does not count once.
pub fn not_once(table: &[u8], nodes: usize) -> Option<usize>
    requires { nodes ≤ length table.now }
    ensures { result ≡ lowest_failing (λ k. eqb (get_or table.now k 0) 1) nodes }
{
    (0..nodes).find(|&n| table[n] != 1)
}

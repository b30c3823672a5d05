// Refusal 7: a table of depths is filled from the lowest node on, since a part has a lower number than
// its owner, and a pass looks for a node that is too deep. An entry stops at one past the limit.
ghost use Rattle.std.specs.Prelude.{◌+◌, ◌≤◌, max, ◌≡◌, leb, length, get_or};
ghost use Rattle.design.specs.Images.{design_in, CommandIn, ExpressionIn};
ghost use Rattle.model.specs.Indices.{lowest_failing};
ghost use Rattle.model.specs.Limits.{depth_max};
ghost use Rattle.model.specs.Trees.{expr_of, cmd_of, expr_depth, cmd_depth};
ghost use Rattle.checker_nodes.specs.Tables.{depth_entry, Depths};

use crate::uses::one_more;
use design::Design;
use design::image::Image;

// The greatest depth, as an entry of a table, and the entry of every depth past it.
const DEEPEST: u8 = Design::DEPTH as u8;

const TOO_DEEP: u8 = DEEPEST + 1;

// The entry one above the deeper of two parts.
fn above(p: u8, q: u8) -> u8
    ensures { result ≡ depth_entry (max p q + 1) }
{
    one_more(p.max(q), TOO_DEEP)
}

// The entry of command n, from those of the commands below n.
pub fn command_depth(image: &Image, depths: &[u8], n: usize) -> u8
    requires { CommandIn image.now n
        × Depths depths.now (λ k. cmd_depth (cmd_of (design_in image.now) k)) n
        × (image.now.design.commands ≤ length depths.now) }
    ensures { result ≡ depth_entry (cmd_depth (cmd_of (design_in image.now) n)) }
{
    let kind = image.command_kind(n);
    let a = image.command_a(n);
    let b = image.command_b(n);
    let c = image.command_c(n);
    match kind {
        2 => above(depths[a], depths[b]),
        5 => above(depths[b], depths[c]),
        _ => 1,
    }
}

// The entry of expression n, from those of the expressions below n. Not one function with `command_depth`:
// they share no more than `above`, as parts are other fields under other kinds.
pub fn expression_depth(image: &Image, depths: &[u8], n: usize) -> u8
    requires { ExpressionIn image.now n
        × Depths depths.now (λ k. expr_depth (expr_of (design_in image.now) k)) n
        × (image.now.design.expressions ≤ length depths.now) }
    ensures { result ≡ depth_entry (expr_depth (expr_of (design_in image.now) n)) }
{
    let kind = image.expression_kind(n);
    let a = image.expression_a(n);
    let b = image.expression_b(n);
    match kind {
        2..=11 => above(depths[a], depths[b]),
        _ => 1,
    }
}

// The lowest of so many nodes whose entry in a table of depths is too deep.
pub fn too_deep(table: &[u8], nodes: usize) -> Option<usize>
    requires { nodes ≤ length table.now }
    ensures { result ≡ lowest_failing (λ k. leb (get_or table.now k 0) depth_max) nodes }
{
    (0..nodes).find(|&n| DEEPEST < table[n])
}

// Refusal 5, at the lowest node of a family, and the tables of uses and depths for refusals 6 and 7. One
// loop over each family: three loops would have the processor guess every kind three times.
ghost use Rattle.std.specs.Prelude.{◌≤◌, length};
ghost use Rattle.design.specs.Images.{design_in};
ghost use Rattle.checker_nodes.specs.Tables.{CommandsPassed, ExpressionsPassed};

use crate::depths::{command_depth, expression_depth};
use crate::kinds::{command_kept, expression_kept};
use crate::uses::{use_command_expression, use_operands, use_parts};
use design::image::Image;

// Every command in turn: its record is judged, its depth is taken, its uses are counted. What only reads
// the record stands before the first store, behind which a compiler would read the record again.
pub fn commands(
    image: &Image,
    uses: &mut [u8],
    expression_uses: &mut [u8],
    depths: &mut [u8],
) -> Option<usize>
    requires { (image.now.design.commands ≤ length uses.old)
        × (image.now.design.expressions ≤ length expression_uses.old)
        × (image.now.design.commands ≤ length depths.old) }
    ensures { CommandsPassed (design_in image.now) result uses.old uses.new expression_uses.old expression_uses.new depths.old depths.new }
{
    for n in 0..image.design.commands {
        if !command_kept(image, n) {
            return Some(n);
        }
        let depth = command_depth(image, depths, n);
        use_parts(uses, image, n);
        use_command_expression(expression_uses, image, n);
        depths[n] = depth;
    }
    None
}

// Every expression in turn, likewise. Not one loop with `commands`: what judges, measures and counts would be closures,
// of which the contract says again what those functions promise.
pub fn expressions(image: &Image, uses: &mut [u8], depths: &mut [u8]) -> Option<usize>
    requires { (image.now.design.expressions ≤ length uses.old)
        × (image.now.design.expressions ≤ length depths.old) }
    ensures { ExpressionsPassed (design_in image.now) result uses.old uses.new depths.old depths.new }
{
    for n in 0..image.design.expressions {
        if !expression_kept(image, n) {
            return Some(n);
        }
        let depth = expression_depth(image, depths, n);
        use_operands(uses, image, n);
        depths[n] = depth;
    }
    None
}

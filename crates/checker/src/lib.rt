// The checker: the passes in the order of the table, to a verdict. Each function judges from its
// pass on, and knows what the passes before it have established.
#![tactic(auto)]

mod flow;

ghost use Rattle.std.specs.Prelude.{ℕ, ◌<◌, ◌≤◌, ◌≡◌, Some};
ghost use Rattle.model.specs.Limits.{commands_max, expressions_max};
ghost use Rattle.model.specs.Nodes.{command_used_once, expression_used_once, command_depth_kept, expression_depth_kept};
ghost use Rattle.model.specs.Verdict.{commands_first as commands_first_of, lowest_node, structure as structure_of, verdict as verdict_of};
ghost use Rattle.design.specs.Images.{design_in, RecordsIn};
ghost use Rattle.design.specs.Kept.{LatticeKept, RegistersKept, StatesKept, ParametersKept};
ghost use Rattle.design.specs.Scopes.{Scopes, NoParameters};
ghost use Rattle.checker_nodes.specs.Tables.{NodesPassedIn, NodesFresh, OnceWhere, ShallowWhere, NodesToldIn};
ghost use Rattle.checker.specs.Nodes.{node_tables, nodes_left};
ghost use Rattle.checker.specs.Stages.{ChildrenTold, from_children as from_children_of, from_scopes as from_scopes_of, from_parameters as from_parameters_of, from_ports as from_ports_of, from_shape as from_shape_of, from_depths as from_depths_of, from_uses as from_uses_of, from_nodes as from_nodes_of, from_states as from_states_of, from_registers as from_registers_of, from_labels as from_labels_of};

use design::Design;
use design::image::Image;
use design::scopes::SCOPES;
use model::{Answer, Refusal, refused_at};

// The length of each table of uses or depths for a design with few nodes. To zero tables for as many as
// there may be, 6 KB in all, is a good part of a short check.
const FEW: usize = 128;

// A command's number, else an expression's place.
fn commands_first(command: Option<usize>, expression: Option<usize>) -> Option<usize>
    requires { (n : ℕ) → expression ≡ Some n → n < expressions_max }
    ensures { result ≡ commands_first_of command expression }
{
    command.or(expression.map(|n| Design::EXPRESSION_PLACE + n))
}

// The lowest node whose record breaks its rule. The loops that judge the records fill the tables of uses
// and depths.
fn node_records(
    image: &Image,
    command_uses: &mut [u8],
    expression_uses: &mut [u8],
    command_depths: &mut [u8],
    expression_depths: &mut [u8],
) -> Option<usize>
    requires { StatesKept (design_in image.now)
        × NodesFresh image.now.design command_uses.old expression_uses.old command_depths.old expression_depths.old }
    ensures { NodesPassedIn image.now result command_uses.new expression_uses.new command_depths.new expression_depths.new
        × (node_tables command_uses.new expression_uses.new command_depths.new expression_depths.new ≡ nodes_left (design_in image.now) (node_tables command_uses.old expression_uses.old command_depths.old expression_depths.old)) }
{
    checker_nodes::uses::use_bodies(command_uses, image);
    let command = checker_nodes::passes::commands(
        image,
        command_uses,
        expression_uses,
        command_depths,
    );
    let expression = checker_nodes::passes::expressions(image, expression_uses, expression_depths);
    commands_first(command, expression)
}

// The lowest node that is not used exactly once.
fn node_uses(image: &Image, commands: &[u8], expressions: &[u8]) -> Option<usize>
    requires { OnceWhere (command_used_once (design_in image.now)) commands.now image.now.design.commands
        × OnceWhere (expression_used_once (design_in image.now)) expressions.now image.now.design.expressions }
    ensures { result ≡ lowest_node (design_in image.now) (command_used_once (design_in image.now)) (expression_used_once (design_in image.now)) }
{
    let command = checker_nodes::uses::not_once(commands, image.design.commands);
    let expression = checker_nodes::uses::not_once(expressions, image.design.expressions);
    commands_first(command, expression)
}

// The lowest node that is too deep.
fn node_depths(image: &Image, commands: &[u8], expressions: &[u8]) -> Option<usize>
    requires { ShallowWhere (command_depth_kept (design_in image.now)) commands.now image.now.design.commands
        × ShallowWhere (expression_depth_kept (design_in image.now)) expressions.now image.now.design.expressions }
    ensures { result ≡ lowest_node (design_in image.now) (command_depth_kept (design_in image.now)) (expression_depth_kept (design_in image.now)) }
{
    let command = checker_nodes::depths::too_deep(commands, image.design.commands);
    let expression = checker_nodes::depths::too_deep(expressions, image.design.expressions);
    commands_first(command, expression)
}

// Refusal 9.
fn from_children(image: &Image, defaults: &[u8], falls: &[u8], scopes: &[u8]) -> Answer
    requires { RecordsIn image.now × ParametersKept (design_in image.now) × ChildrenTold (design_in image.now) defaults.now falls.now × Scopes (design_in image.now) scopes.now }
    ensures { result ≡ from_children_of (design_in image.now) }
{
    refused_at(
        Refusal::ChildLabel,
        checker_records::states::child_labels(image, defaults, falls, scopes),
    )
}

// Refusal 19 at nodes, and on.
fn from_scopes(image: &Image, defaults: &[u8], falls: &[u8], scopes: &[u8]) -> Answer
    requires { RecordsIn image.now × ParametersKept (design_in image.now) × ChildrenTold (design_in image.now) defaults.now falls.now × Scopes (design_in image.now) scopes.now }
    ensures { result ≡ from_scopes_of (design_in image.now) }
{
    refused_at(
        Refusal::Parameter,
        checker_scopes::scope::scope_faults(image, scopes),
    )?;
    from_children(image, defaults, falls, scopes)
}

// Refusal 19, at states first, and on. What is in scope of each state is kept for the passes behind it.
fn from_parameters(image: &Image, defaults: &[u8], falls: &[u8]) -> Answer
    requires { RecordsIn image.now × ChildrenTold (design_in image.now) defaults.now falls.now }
    ensures { result ≡ from_parameters_of (design_in image.now) }
{
    let mut scopes = [0u8; SCOPES];
    refused_at(
        Refusal::Parameter,
        checker_records::parameters::parameters(image, defaults, &mut scopes),
    )?;
    from_scopes(image, defaults, falls, &scopes)
}

// Refusal 16, and on, by a pass for each.
fn from_ports(image: &Image, defaults: &[u8], falls: &[u8]) -> Answer
    requires { RecordsIn image.now × ChildrenTold (design_in image.now) defaults.now falls.now }
    ensures { result ≡ from_ports_of (design_in image.now) }
{
    refused_at(
        Refusal::PortAssigned,
        checker_nodes::ports::ports_named(image),
    )?;
    from_parameters(image, defaults, falls)
}

// Refusal 9 in a design without parameters, whose table of scopes has only zeros.
fn from_plain(image: &Image, defaults: &[u8], falls: &[u8]) -> Answer
    requires { RecordsIn image.now × ParametersKept (design_in image.now) × NoParameters (design_in image.now) × ChildrenTold (design_in image.now) defaults.now falls.now }
    ensures { result ≡ from_children_of (design_in image.now) }
{
    let scopes = [0u8; SCOPES];
    from_children(image, defaults, falls, &scopes)
}

// Refusal 16, and on. In a plain design 16 and 19 find nothing.
fn from_names(image: &Image, defaults: &[u8], falls: &[u8]) -> Answer
    requires { RecordsIn image.now × ChildrenTold (design_in image.now) defaults.now falls.now }
    ensures { result ≡ from_ports_of (design_in image.now) }
{
    if checker_scopes::plain::plain(image) {
        return from_plain(image, defaults, falls);
    }
    from_ports(image, defaults, falls)
}

// Refusal 8, and on. Which states hold a fall, and their default children, are kept for 19 and 9.
fn from_shape(image: &Image) -> Answer
    requires { RecordsIn image.now }
    ensures { result ≡ from_shape_of (design_in image.now) }
{
    let mut defaults = [0u8; Design::STATES];
    design::reset::default_targets(image, &mut defaults);
    let mut falls = [0u8; Design::STATES];
    refused_at(
        Refusal::Shape,
        checker_bodies::shape::shapes(image, &defaults, &mut falls),
    )?;
    from_names(image, &defaults, &falls)
}

// Refusal 7, and on.
fn from_depths(image: &Image, command_depths: &[u8], expression_depths: &[u8]) -> Answer
    requires { RecordsIn image.now
        × ShallowWhere (command_depth_kept (design_in image.now)) command_depths.now image.now.design.commands
        × ShallowWhere (expression_depth_kept (design_in image.now)) expression_depths.now image.now.design.expressions }
    ensures { result ≡ from_depths_of (design_in image.now) }
{
    refused_at(
        Refusal::Depth,
        node_depths(image, command_depths, expression_depths),
    )?;
    from_shape(image)
}

// Refusal 6, and on.
fn from_uses(
    image: &Image,
    command_uses: &[u8],
    expression_uses: &[u8],
    command_depths: &[u8],
    expression_depths: &[u8],
) -> Answer
    requires { RecordsIn image.now
        × NodesToldIn image.now command_uses.now expression_uses.now command_depths.now expression_depths.now }
    ensures { result ≡ from_uses_of (design_in image.now) }
{
    refused_at(
        Refusal::NodeUse,
        node_uses(image, command_uses, expression_uses),
    )?;
    from_depths(image, command_depths, expression_depths)
}

// Refusal 5, and on, with tables that are lent.
fn from_tables(
    image: &Image,
    command_uses: &mut [u8],
    expression_uses: &mut [u8],
    command_depths: &mut [u8],
    expression_depths: &mut [u8],
) -> Answer
    requires { LatticeKept (design_in image.now) × RegistersKept (design_in image.now) × StatesKept (design_in image.now)
        × NodesFresh image.now.design command_uses.old expression_uses.old command_depths.old expression_depths.old }
    ensures { (result ≡ from_nodes_of (design_in image.now))
        × (node_tables command_uses.new expression_uses.new command_depths.new expression_depths.new ≡ nodes_left (design_in image.now) (node_tables command_uses.old expression_uses.old command_depths.old expression_depths.old)) }
{
    refused_at(
        Refusal::NodeRecord,
        node_records(
            image,
            command_uses,
            expression_uses,
            command_depths,
            expression_depths,
        ),
    )?;
    from_uses(
        image,
        command_uses,
        expression_uses,
        command_depths,
        expression_depths,
    )
}

// Refusal 5, and on, of a design with at most so many nodes, with fresh tables.
fn from_sized<const COMMANDS: usize, const EXPRESSIONS: usize>(image: &Image) -> Answer
    requires { LatticeKept (design_in image.now) × RegistersKept (design_in image.now) × StatesKept (design_in image.now)
        × (image.now.design.commands ≤ COMMANDS) × (COMMANDS ≤ commands_max)
        × (image.now.design.expressions ≤ EXPRESSIONS) × (EXPRESSIONS ≤ expressions_max) }
    ensures { result ≡ from_nodes_of (design_in image.now) }
{
    let mut command_uses = [0u8; COMMANDS];
    let mut expression_uses = [0u8; EXPRESSIONS];
    let mut command_depths = [0u8; COMMANDS];
    let mut expression_depths = [0u8; EXPRESSIONS];
    from_tables(
        image,
        &mut command_uses,
        &mut expression_uses,
        &mut command_depths,
        &mut expression_depths,
    )
}

// Refusal 5, and on.
fn from_nodes(image: &Image) -> Answer
    requires { LatticeKept (design_in image.now) × RegistersKept (design_in image.now) × StatesKept (design_in image.now) }
    ensures { result ≡ from_nodes_of (design_in image.now) }
{
    if (image.design.commands <= FEW) & (image.design.expressions <= FEW) {
        return from_sized::<FEW, FEW>(image);
    }
    from_sized::<{ Design::COMMANDS }, { Design::EXPRESSIONS }>(image)
}

// Refusal 4, and on.
fn from_states(image: &Image) -> Answer
    requires { LatticeKept (design_in image.now) × RegistersKept (design_in image.now) }
    ensures { result ≡ from_states_of (design_in image.now) }
{
    refused_at(Refusal::StateRecord, checker_records::states::states(image))?;
    from_nodes(image)
}

// Refusal 3, and on.
fn from_registers(image: &Image) -> Answer
    requires { LatticeKept (design_in image.now) }
    ensures { result ≡ from_registers_of (design_in image.now) }
{
    refused_at(
        Refusal::RegisterRecord,
        checker_records::registers::registers(image),
    )?;
    from_states(image)
}

// Refusal 2, and on.
fn from_labels(image: &Image) -> Answer
    ensures { result ≡ from_labels_of (design_in image.now) }
{
    refused_at(Refusal::LabelRow, checker_records::lattice::labels(image))?;
    from_registers(image)
}

// The image checks but for 10 to 12: 1 to 8, 16, 19 and 9.
pub fn structure(image: &[u8]) -> Answer
    ensures { result ≡ structure_of image.now }
{
    if !Design::directory_kept(image) {
        return Err(Refusal::Directory.at(0));
    }
    from_labels(&Image::read(image))
}

// The image checks: the structure, and 10 to 12 in one pass.
pub fn verdict(image: &[u8]) -> Answer
    ensures { result ≡ verdict_of image.now }
{
    structure(image)?;
    flow::flow_faults(&Image::read(image))
}

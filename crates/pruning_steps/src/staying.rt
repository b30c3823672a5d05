// The nodes that stay: those of the bodies of reached states. A part has a lower number than its owner, so
// that going downwards every node is met behind what uses it.
ghost use Rattle.std.specs.Prelude.{◌≤◌, ◌<◌, ◌≡◌, [], ◌∷◌, length, replicate};
ghost use Rattle.design.specs.Images.{design_in, RecordsIn, StructuredIn, CommandIn, ExpressionIn};
ghost use Rattle.model.specs.Limits.{commands_max, expressions_max};
ghost use Rattle.model.specs.Indices.{join_below, filled_to};
ghost use Rattle.model.specs.Nodes.{command_of, parts_of, values_of, operands_of};
ghost use Rattle.pruning_model.specs.Reached.{reached as reached_in};
ghost use Rattle.pruning_model.specs.Pruned.{command_stays, expression_stays};
ghost use Rattle.pruning_steps.specs.Marks.{mark_of, Marked};
ghost use Rattle.pruning_steps.specs.Staying.{mark_all, given_by};

use design::image::Image;

// Two nodes stay.
fn mark_both(marks: &mut [u8], a: usize, b: usize)
    requires { (a < length marks.old) × (b < length marks.old) }
    ensures { marks.new ≡ mark_all marks.old (a ∷ b ∷ []) }
{
    marks[a] = 1;
    marks[b] = 1;
}

// The command of state s stays, where the state is reached.
fn mark_body(image: &Image, reached: &[u8], s: usize, marks: &mut [u8])
    requires { RecordsIn image.now
        × (s < image.now.design.states)
        × (image.now.design.states ≤ length reached.now)
        × (image.now.design.commands ≤ length marks.old) }
    ensures { marks.new ≡ mark_all marks.old (given_by reached.now (command_of (design_in image.now)) s) }
{
    if !(reached[s] == 1) {
        return;
    }
    let command = image.state_command(s);
    marks[command] = 1;
}

// The commands of reached states stay.
fn mark_bodies(image: &Image, reached: &[u8], marks: &mut [u8])
    requires { RecordsIn image.now
        × (image.now.design.states ≤ length reached.now)
        × (image.now.design.commands ≤ length marks.old) }
    ensures { marks.new ≡ mark_all marks.old (join_below (given_by reached.now (command_of (design_in image.now))) image.now.design.states) }
{
    for s in 0..image.design.states {
        mark_body(image, reached, s, marks);
    }
}

// The parts of command n stay, where it stays itself.
fn mark_parts(image: &Image, n: usize, marks: &mut [u8])
    requires { CommandIn image.now n × (image.now.design.commands ≤ length marks.old) }
    ensures { marks.new ≡ mark_all marks.old (given_by marks.old (parts_of (design_in image.now)) n) }
{
    if !(marks[n] == 1) {
        return;
    }
    let kind = image.command_kind(n);
    let a = image.command_a(n);
    let b = image.command_b(n);
    let c = image.command_c(n);
    match kind {
        2 => mark_both(marks, a, b),
        5 => mark_both(marks, b, c),
        _ => {}
    }
}

// The commands that stay are marked.
pub fn staying_commands(image: &Image, reached: &[u8], marks: &mut [u8])
    requires { StructuredIn image.now × Marked (reached_in (design_in image.now)) image.now.design.states reached.now × (marks.old ≡ replicate commands_max 0) }
    ensures { (marks.new ≡ filled_to (mark_of (command_stays (design_in image.now))) image.now.design.commands marks.old)
        × Marked (command_stays (design_in image.now)) image.now.design.commands marks.new }
{
    mark_bodies(image, reached, marks);
    for n in (0..image.design.commands).rev() {
        mark_parts(image, n, marks);
    }
}

// The expression of command n stays, where the command does.
fn mark_value(image: &Image, commands: &[u8], n: usize, marks: &mut [u8])
    requires { CommandIn image.now n
        × (image.now.design.commands ≤ length commands.now)
        × (image.now.design.expressions ≤ length marks.old) }
    ensures { marks.new ≡ mark_all marks.old (given_by commands.now (values_of (design_in image.now)) n) }
{
    if !(commands[n] == 1) {
        return;
    }
    let kind = image.command_kind(n);
    let a = image.command_a(n);
    match kind {
        1 | 5 => marks[a] = 1,
        _ => {}
    }
}

// The expressions of commands that stay do.
fn mark_values(image: &Image, commands: &[u8], marks: &mut [u8])
    requires { RecordsIn image.now
        × (image.now.design.commands ≤ length commands.now)
        × (image.now.design.expressions ≤ length marks.old) }
    ensures { marks.new ≡ mark_all marks.old (join_below (given_by commands.now (values_of (design_in image.now))) image.now.design.commands) }
{
    for n in 0..image.design.commands {
        mark_value(image, commands, n, marks);
    }
}

// The operands of expression n stay, where it stays itself. Not one function with `mark_parts`: they share no more than
// `mark_both`, as parts are other fields under other kinds.
fn mark_operands(image: &Image, n: usize, marks: &mut [u8])
    requires { ExpressionIn image.now n × (image.now.design.expressions ≤ length marks.old) }
    ensures { marks.new ≡ mark_all marks.old (given_by marks.old (operands_of (design_in image.now)) n) }
{
    if !(marks[n] == 1) {
        return;
    }
    let kind = image.expression_kind(n);
    let a = image.expression_a(n);
    let b = image.expression_b(n);
    match kind {
        2..=11 => mark_both(marks, a, b),
        _ => {}
    }
}

// The expressions that stay are marked.
pub fn staying_expressions(image: &Image, commands: &[u8], marks: &mut [u8])
    requires { StructuredIn image.now × Marked (command_stays (design_in image.now)) image.now.design.commands commands.now × (marks.old ≡ replicate expressions_max 0) }
    ensures { (marks.new ≡ filled_to (mark_of (expression_stays (design_in image.now))) image.now.design.expressions marks.old)
        × Marked (expression_stays (design_in image.now)) image.now.design.expressions marks.new }
{
    mark_values(image, commands, marks);
    for n in (0..image.design.expressions).rev() {
        mark_operands(image, n, marks);
    }
}

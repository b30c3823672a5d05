// The states that are reached. A state that is found waits until its body has been gone through, which
// finds those that its falls and gotos lead to. Each body is gone through once.
ghost use Rattle.std.specs.Prelude.{◌≤◌, ◌<◌, ◌≡◌, length, replicate, set};
ghost use Rattle.design.specs.Images.{design_in, StructuredIn};
ghost use Rattle.model.specs.Indices.{lowest, filled_to};
ghost use Rattle.model.specs.Limits.{states_max};
ghost use Rattle.model.specs.Trees.{cmd_of};
ghost use Rattle.design.specs.Resets.{Defaults};
ghost use Rattle.pruning_model.specs.Reached.{leads_to, successors, reached};
ghost use Rattle.pruning_steps.specs.Marks.{mark_of, Marked};
ghost use Rattle.pruning_steps.specs.Reaching.{found, found_all, waits, FindingIn};

use design::Design;
use design::image::Image;

// A state that was gone through, and one that waits; 0 is one that was not found.
const DONE: u8 = 1;

const WAITING: u8 = 2;

// State t is found, unless it was before.
fn find(marks: &mut [u8], t: usize)
    requires { t < length marks.old }
    ensures { marks.new ≡ found marks.old t }
{
    if marks[t] == 0 {
        marks[t] = WAITING;
    }
}

// The states that command n leads to are found, where a fall leads to the child that is given. By recursion
// over parts.
fn find_successors(image: &Image, n: usize, child: usize, marks: &mut [u8])
    requires { FindingIn image.now n child marks.old }
    ensures { marks.new ≡ found_all marks.old (leads_to child (cmd_of (design_in image.now) n)) }
{
    match image.command_kind(n) {
        2 => {
            find_successors(image, image.command_a(n), child, marks);
            find_successors(image, image.command_b(n), child, marks);
        }
        3 => find(marks, child),
        4 => find(marks, image.command_item(n)),
        5 => {
            find_successors(image, image.command_b(n), child, marks);
            find_successors(image, image.command_c(n), child, marks);
        }
        _ => {}
    }
}

// The lowest state that waits.
fn waiting(marks: &[u8], states: usize) -> Option<usize>
    requires { states ≤ length marks.now }
    ensures { result ≡ lowest (waits marks.now) states }
{
    (0..states).find(|&s| marks[s] == WAITING)
}

// State s is gone through.
fn go_through(image: &Image, defaults: &[u8], s: usize, marks: &mut [u8])
    requires { StructuredIn image.now × Defaults (design_in image.now) defaults.now × (s < image.now.design.states) × (image.now.design.states ≤ length marks.old) }
    ensures { marks.new ≡ found_all (set marks.old s 1) (successors (design_in image.now) s) }
{
    marks[s] = DONE;
    let command = image.state_command(s);
    let child = usize::from(defaults[s]);
    find_successors(image, command, child, marks);
}

// The states that are reached are marked.
pub fn reached_states(image: &Image, marks: &mut [u8])
    requires { StructuredIn image.now × (marks.old ≡ replicate states_max 0) }
    ensures { (marks.new ≡ filled_to (mark_of (reached (design_in image.now))) image.now.design.states marks.old)
        × Marked (reached (design_in image.now)) image.now.design.states marks.new }
{
    let mut defaults = [0u8; Design::STATES];
    design::reset::default_targets(image, &mut defaults);
    marks[0] = WAITING;
    while let Some(s) = waiting(marks, image.design.states) {
        go_through(image, &defaults, s, marks);
    }
}

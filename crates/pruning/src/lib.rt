// Pruning: the image with only the states that are reached from the root, and with the nodes of their bodies. All
// that stays is marked and numbered in tables on the stack, so that the length of the result is known before a
// byte of it is written.
#![tactic(auto)]

mod tables;
mod writing;

ghost use Rattle.std.specs.Prelude.{◌+◌, ◌*◌, ◌≤◌, ◌<◌, ◌≡◌};
ghost use Rattle.design.specs.Images.{design_in, StructuredIn};
ghost use Rattle.model.specs.Limits.{node_length};
ghost use Rattle.model.specs.Rules.{Keeps};
ghost use Rattle.pruning_model.specs.Calls.{prune as prune_of};
ghost use Rattle.pruning.specs.Tables.{AllMarkedIn, AllNumberedIn, Resized, Result};
ghost use Rattle.pruning.specs.Stages.{prune_on};
ghost use Rattle.model.specs.Calls.{left_as};

use crate::tables::{Marks, Numbers, Tables};
use crate::writing::write;
use design::Design;
use design::image::Image;
use model::{Answer, Refusal};
use pruning_steps::numbering::close_up;
use pruning_steps::reaching::reached_states;
use pruning_steps::staying::{staying_commands, staying_expressions};

// Where so many nodes end that begin at a place.
fn nodes_end(at: usize, nodes: usize) -> usize
    requires { (at < 65536) × (nodes < 65536) }
    ensures { result ≡ at + node_length * nodes }
{
    at + Design::NODE_LENGTH * nodes
}

// Counts and offsets with so many states, commands and expressions.
fn resized(design: Design, states: usize, commands: usize, expressions: usize) -> Design
    requires { (design.states_at < 1024) × (states ≤ 64) × (commands ≤ 1024) × (expressions ≤ 2048) }
    ensures { Resized design states commands expressions result }
{
    let commands_at = design.states_at + Design::STATE_LENGTH * states;
    Design {
        labels: design.labels,
        registers: design.registers,
        states,
        commands,
        expressions,
        registers_at: design.registers_at,
        states_at: design.states_at,
        commands_at,
        expressions_at: nodes_end(commands_at, commands),
    }
}

// Pruning with all that stays numbered, and with the counts and offsets of the result.
fn prune_numbered(
    image: &Image,
    smaller: Design,
    marks: &Marks,
    numbers: &Numbers,
    out: &mut [u8],
) -> Answer
    requires { StructuredIn image.now
        × Result (design_in image.now) smaller
        × AllMarkedIn image.now marks.now
        × AllNumberedIn image.now numbers.now }
    ensures { left_as result out.new ≡ prune_on image.now.bytes.now out.old }
{
    let length = nodes_end(smaller.expressions_at, smaller.expressions);
    if out.len() < length {
        return Err(Refusal::OutputArea.at(0));
    }
    write(image, smaller, marks, numbers, out);
    Ok(length)
}

// Pruning with all that stays marked.
fn prune_marked(image: &Image, marks: &Marks, out: &mut [u8]) -> Answer
    requires { StructuredIn image.now × AllMarkedIn image.now marks.now }
    ensures { left_as result out.new ≡ prune_on image.now.bytes.now out.old }
{
    let mut numbers: Numbers = Tables {
        states: [0u16; Design::STATES],
        commands: [0u16; Design::COMMANDS],
        expressions: [0u16; Design::EXPRESSIONS],
    };
    let states = close_up(&marks.states, image.design.states, &mut numbers.states);
    let commands = close_up(
        &marks.commands,
        image.design.commands,
        &mut numbers.commands,
    );
    let expressions = close_up(
        &marks.expressions,
        image.design.expressions,
        &mut numbers.expressions,
    );
    let result = resized(image.design, states, commands, expressions);
    prune_numbered(image, result, marks, &numbers, out)
}

// Pruning an accepted image.
fn prune_accepted(image: &[u8], out: &mut [u8]) -> Answer
    requires { Keeps image.now }
    ensures { left_as result out.new ≡ prune_on image.now out.old }
{
    let image = Image::read(image);
    let mut marks: Marks = Tables {
        states: [0u8; Design::STATES],
        commands: [0u8; Design::COMMANDS],
        expressions: [0u8; Design::EXPRESSIONS],
    };
    reached_states(&image, &mut marks.states);
    staying_commands(&image, &marks.states, &mut marks.commands);
    staying_expressions(&image, &marks.commands, &mut marks.expressions);
    prune_marked(&image, &marks, out)
}

pub fn prune(image: &[u8], out: &mut [u8]) -> Answer
    ensures { left_as result out.new ≡ prune_of image.now out.old }
{
    checker::verdict(image)?;
    prune_accepted(image, out)
}

// The bytes of a pruned image, section by section.
ghost use Rattle.std.specs.Prelude.{◌≤◌, ◌≡◌, length};
ghost use Rattle.design.specs.Images.{design_in, StructuredIn};
ghost use Rattle.model.specs.Limits.{directory_length};
ghost use Rattle.model.specs.Image.{States, offset, design_of};
ghost use Rattle.model.specs.Rules.{DirectoryKeeps};
ghost use Rattle.encoding.specs.Encoding.{states_front, commands_front, expressions_front};
ghost use Rattle.encoding.specs.Parts.{overwritten_at, over};
ghost use Rattle.pruning_model.specs.Reached.{reached as reached_in};
ghost use Rattle.pruning_model.specs.Pruned.{command_stays, pruned, pruned_image};
ghost use Rattle.pruning_steps.specs.Marks.{Marked, Numbered};
ghost use Rattle.pruning.specs.Tables.{AllMarkedIn, AllNumberedIn, Result};
ghost use Rattle.pruning.specs.Parts.{kept_bytes, Near, ResultPut};

use crate::tables::{Marks, Numbers};
use design::Design;
use design::image::Image;
use encoding::parts::put;
use encoding::writers::put_directory;
use pruning_steps::writing::{write_commands, write_expressions, write_states};

// Labels and registers, as they stand in the image; the states begin at `end`.
fn put_kept(image: &[u8], end: usize, out: &mut [u8])
    requires { DirectoryKeeps image.now × (end ≡ offset image.now States) × (end ≤ length out.old) }
    ensures { out.new ≡ overwritten_at directory_length (kept_bytes (design_of image.now)) out.old }
{
    put(
        &image[Design::DIRECTORY_LENGTH..end],
        out,
        Design::DIRECTORY_LENGTH,
    );
}

// The directory of the result.
fn put_result(smaller: Design, out: &mut [u8])
    requires { Near smaller × (directory_length ≤ length out.old) }
    ensures { ResultPut smaller out.old out.new }
{
    let labels = Design::LABEL_LENGTH * smaller.labels;
    let registers = Design::REGISTER_LENGTH * smaller.registers;
    let states = Design::STATE_LENGTH * smaller.states;
    let commands = Design::NODE_LENGTH * smaller.commands;
    let expressions = Design::NODE_LENGTH * smaller.expressions;
    put_directory(
        out,
        Design::DIRECTORY_LENGTH,
        labels,
        registers,
        states,
        commands,
        expressions,
    );
}

// All that stands in front of the states.
fn write_front(image: &Image, smaller: Design, out: &mut [u8])
    requires { StructuredIn image.now
        × Result (design_in image.now) smaller
        × (length (pruned_image image.now.bytes.now) ≤ length out.old) }
    ensures { out.new ≡ overwritten_at 0 (states_front (pruned (design_in image.now))) out.old }
{
    put_result(smaller, out);
    put_kept(image.bytes, image.design.states_at, out);
}

// All that stands in front of the commands.
fn write_to_commands(
    image: &Image,
    smaller: Design,
    marks: &Marks,
    numbers: &Numbers,
    out: &mut [u8],
)
    requires { StructuredIn image.now
        × Result (design_in image.now) smaller
        × Marked (reached_in (design_in image.now)) image.now.design.states marks.now.states
        × Numbered (reached_in (design_in image.now)) image.now.design.states numbers.now.states
        × Numbered (command_stays (design_in image.now)) image.now.design.commands numbers.now.commands
        × (length (pruned_image image.now.bytes.now) ≤ length out.old) }
    ensures { out.new ≡ overwritten_at 0 (commands_front (pruned (design_in image.now))) out.old }
{
    let at = smaller.states_at;
    write_front(image, smaller, out);
    write_states(
        image,
        &marks.states,
        &numbers.states,
        &numbers.commands,
        at,
        out,
    );
}

// All that stands in front of the expressions.
fn write_to_expressions(
    image: &Image,
    smaller: Design,
    marks: &Marks,
    numbers: &Numbers,
    out: &mut [u8],
)
    requires { StructuredIn image.now
        × Result (design_in image.now) smaller
        × Marked (reached_in (design_in image.now)) image.now.design.states marks.now.states
        × Marked (command_stays (design_in image.now)) image.now.design.commands marks.now.commands
        × AllNumberedIn image.now numbers.now
        × (length (pruned_image image.now.bytes.now) ≤ length out.old) }
    ensures { out.new ≡ overwritten_at 0 (expressions_front (pruned (design_in image.now))) out.old }
{
    let at = smaller.commands_at;
    write_to_commands(image, smaller, marks, numbers, out);
    write_commands(
        image,
        &marks.commands,
        &numbers.states,
        &numbers.commands,
        &numbers.expressions,
        at,
        out,
    );
}

// All of the image.
pub fn write(image: &Image, smaller: Design, marks: &Marks, numbers: &Numbers, out: &mut [u8])
    requires { StructuredIn image.now
        × Result (design_in image.now) smaller
        × AllMarkedIn image.now marks.now
        × AllNumberedIn image.now numbers.now
        × (length (pruned_image image.now.bytes.now) ≤ length out.old) }
    ensures { out.new ≡ over (pruned_image image.now.bytes.now) out.old }
{
    let at = smaller.expressions_at;
    write_to_expressions(image, smaller, marks, numbers, out);
    write_expressions(image, &marks.expressions, &numbers.expressions, at, out);
}

// The design table in bytes: its limits, its directory, and one accessor for each field. All other code reads
// records by these; only what writes images anew (crates `encoding` and `filing_steps`) has places of its own.
#![tactic(auto)]

pub mod image;
pub mod labels;
pub mod reset;
pub mod rows;
pub mod scopes;
pub mod states;
pub mod widths;
pub mod words;

ghost use Rattle.std.specs.Prelude.{◌+◌, ◌*◌, ◌/◌, ◌%◌, ◌<◌, ◌≤◌, ◌&&◌, eqb, leb, ◌≡◌, length, set};
ghost use Rattle.model.specs.Image.{word16_at, word32_at, offsets_kept as offsets_kept_of, directory_kept as directory_kept_of};
ghost use Rattle.model.specs.Limits.{directory_length, label_length, register_length, state_length, node_length, labels_min, labels_max, registers_max, states_min, states_max, commands_max, expressions_max, depth_max, expression_place, width_max, word_length, parameters_max, parameter_register, parameter_label, binding_length, target_length, largest_image};
ghost use Rattle.model.specs.Rules.{DirectoryKeeps};
ghost use Rattle.model.specs.Machine.{reset_areas};
ghost use Rattle.model.specs.Calls.{lent_of};
ghost use Rattle.design.specs.Records.{row_in, register_in, state_in, node_in, constant_in, node_end, register_end, row_end, state_end};
ghost use Rattle.design.specs.Describes.{Describes};
ghost use Rattle.design.specs.Images.{design_in};
ghost use Rattle.design.specs.Kept.{StatesKept};
ghost use Rattle.design.specs.Resets.{lends};

use image::Image;

// What an image's directory says: how many records each section has, and where it begins. The
// labels begin behind the directory.
#[derive(Clone, Copy)]
pub struct Design {
    pub labels: usize,
    pub registers: usize,
    pub states: usize,
    pub commands: usize,
    pub expressions: usize,
    pub registers_at: usize,
    pub states_at: usize,
    pub commands_at: usize,
    pub expressions_at: usize,
}

// The 16-bit field at a place.
fn word16(image: &[u8], at: usize) -> usize
    requires { at + 1 < length image.now }
    ensures { (result ≡ word16_at image.now at) × (result < 65536) }
{
    usize::from(u16::from_le_bytes([image[at], image[at + 1]]))
}

// The 32-bit field at a place.
fn word32(image: &[u8], at: usize) -> u32
    requires { at + 3 < length image.now }
    ensures { result ≡ word32_at image.now at }
{
    u32::from_le_bytes([image[at], image[at + 1], image[at + 2], image[at + 3]])
}

// The offset and the length of section k, and where it ends.
fn offset(image: &[u8], k: usize) -> usize
    requires { (directory_length ≤ length image.now) × (k < 5) }
    ensures { (result ≡ word16_at image.now (4 * k)) × (result < 65536) }
{
    word16(image, 4 * k)
}

fn size(image: &[u8], k: usize) -> usize
    requires { (directory_length ≤ length image.now) × (k < 5) }
    ensures { (result ≡ word16_at image.now (4 * k + 2)) × (result < 65536) }
{
    word16(image, 4 * k + 2)
}

fn end(image: &[u8], k: usize) -> usize
    requires { (directory_length ≤ length image.now) × (k < 5) }
    ensures { result ≡ word16_at image.now (4 * k) + word16_at image.now (4 * k + 2) }
{
    offset(image, k) + size(image, k)
}

// The sections stand one behind the other, from the directory's end to the image's.
fn offsets_kept(image: &[u8]) -> bool
    requires { directory_length ≤ length image.now }
    ensures { result ≡ offsets_kept_of image.now }
{
    (Design::DIRECTORY_LENGTH <= image.len())
        & (offset(image, 0) == Design::DIRECTORY_LENGTH)
        & (offset(image, 1) == end(image, 0))
        & (offset(image, 2) == end(image, 1))
        & (offset(image, 3) == end(image, 2))
        & (offset(image, 4) == end(image, 3))
        & (image.len() == end(image, 4))
}

// A section of so many bytes holds whole records, within its limits.
fn section_kept(size: usize, width: usize, fewest: usize, most: usize) -> bool
    requires { 0 < width }
    ensures { result ≡ (eqb (size % width) 0 && leb fewest (size / width) && leb (size / width) most) }
{
    (size % width == 0) & (fewest <= size / width) & (size / width <= most)
}

impl Design {
    // The least and the greatest count of records in each section; those without a least may be empty.
    pub const LEAST_LABELS: usize = 1;

    pub const LABELS: usize = 16;

    pub const REGISTERS: usize = 64;

    pub const LEAST_STATES: usize = 1;

    pub const STATES: usize = 64;

    pub const COMMANDS: usize = 1024;

    pub const EXPRESSIONS: usize = 2048;
    // The length of the directory and of each record, in bytes.
    pub const DIRECTORY_LENGTH: usize = 20;

    pub const LABEL_LENGTH: usize = 2;

    pub const REGISTER_LENGTH: usize = 7;

    pub const STATE_LENGTH: usize = 9;

    pub const NODE_LENGTH: usize = 8;
    // The length of the largest image: each section has as many records as it may have.
    pub const LARGEST: usize = Self::DIRECTORY_LENGTH
        + Self::LABEL_LENGTH * Self::LABELS
        + Self::REGISTER_LENGTH * Self::REGISTERS
        + Self::STATE_LENGTH * Self::STATES
        + Self::NODE_LENGTH * Self::COMMANDS
        + Self::NODE_LENGTH * Self::EXPRESSIONS;
    // The greatest width of a register, in bits.
    pub const WIDTH: usize = 32;
    // The bytes that a register takes in its area.
    pub const WORD_LENGTH: usize = 4;
    // How deep commands and expressions nest.
    pub const DEPTH: usize = 64;
    // What is added to an expression's number to give its place.
    pub const EXPRESSION_PLACE: usize = 1024;
    // The most parameters of a state, and the most in its scope.
    pub const PARAMETERS: usize = 2;
    // The register byte and the label byte of the first parameter in scope.
    pub const PARAMETER_REGISTER: usize = 64;

    pub const PARAMETER_LABEL: usize = 16;
    // The bytes that a state takes for its bindings, and in all in the area of the targets.
    pub const BINDING_LENGTH: usize = 2;

    pub const TARGET_LENGTH: usize = 3;

    // Each limit is the one that the meaning names.
    pub fn limits()
        ensures least_labels { Design.LEAST_LABELS ≡ labels_min }
        ensures labels { Design.LABELS ≡ labels_max }
        ensures registers { Design.REGISTERS ≡ registers_max }
        ensures least_states { Design.LEAST_STATES ≡ states_min }
        ensures states { Design.STATES ≡ states_max }
        ensures commands { Design.COMMANDS ≡ commands_max }
        ensures expressions { Design.EXPRESSIONS ≡ expressions_max }
        ensures directory_length { Design.DIRECTORY_LENGTH ≡ directory_length }
        ensures label_length { Design.LABEL_LENGTH ≡ label_length }
        ensures register_length { Design.REGISTER_LENGTH ≡ register_length }
        ensures state_length { Design.STATE_LENGTH ≡ state_length }
        ensures node_length { Design.NODE_LENGTH ≡ node_length }
        ensures largest { Design.LARGEST ≡ largest_image }
        ensures width { Design.WIDTH ≡ width_max }
        ensures word_length { Design.WORD_LENGTH ≡ word_length }
        ensures depth { Design.DEPTH ≡ depth_max }
        ensures expression_place { Design.EXPRESSION_PLACE ≡ expression_place }
        ensures parameters { Design.PARAMETERS ≡ parameters_max }
        ensures parameter_register { Design.PARAMETER_REGISTER ≡ parameter_register }
        ensures parameter_label { Design.PARAMETER_LABEL ≡ parameter_label }
        ensures binding_length { Design.BINDING_LENGTH ≡ binding_length }
        ensures target_length { Design.TARGET_LENGTH ≡ target_length }
    {}

    // The row of label i.
    pub fn row(image: &[u8], i: usize) -> usize
        requires { row_end i ≤ length image.now }
        ensures { (result ≡ row_in image.now i) × (result < 65536) }
    {
        word16(image, Self::DIRECTORY_LENGTH + Self::LABEL_LENGTH * i)
    }

    // The fields of register r, where the registers begin at a place.
    pub fn register_label(image: &[u8], at: usize, r: usize) -> usize
        requires { register_end at r ≤ length image.now }
        ensures { (result ≡ (register_in image.now at r).label) × (result < 256) }
    {
        usize::from(image[at + Self::REGISTER_LENGTH * r])
    }

    // Another label for register r.
    pub fn put_register_label(image: &mut [u8], at: usize, r: usize, label: u8)
        requires { register_end at r ≤ length image.old }
        ensures { image.new ≡ set image.old (at + register_length * r) label }
    {
        image[at + Self::REGISTER_LENGTH * r] = label;
    }

    pub fn register_kind(image: &[u8], at: usize, r: usize) -> usize
        requires { register_end at r ≤ length image.now }
        ensures { (result ≡ (register_in image.now at r).kind) × (result < 256) }
    {
        usize::from(image[at + Self::REGISTER_LENGTH * r + 1])
    }

    pub fn register_reset(image: &[u8], at: usize, r: usize) -> u32
        requires { register_end at r ≤ length image.now }
        ensures { result ≡ (register_in image.now at r).reset }
    {
        word32(image, at + Self::REGISTER_LENGTH * r + 2)
    }

    pub fn register_width(image: &[u8], at: usize, r: usize) -> usize
        requires { register_end at r ≤ length image.now }
        ensures { (result ≡ (register_in image.now at r).width) × (result < 256) }
    {
        usize::from(image[at + Self::REGISTER_LENGTH * r + 6])
    }

    // The fields of state s, where the states begin at a place.
    pub fn parent(image: &[u8], at: usize, s: usize) -> usize
        requires { state_end at s ≤ length image.now }
        ensures { (result ≡ (state_in image.now at s).parent) × (result < 256) }
    {
        usize::from(image[at + Self::STATE_LENGTH * s])
    }

    pub fn state_label(image: &[u8], at: usize, s: usize) -> usize
        requires { state_end at s ≤ length image.now }
        ensures { (result ≡ (state_in image.now at s).label) × (result < 256) }
    {
        usize::from(image[at + Self::STATE_LENGTH * s + 1])
    }

    pub fn state_command(image: &[u8], at: usize, s: usize) -> usize
        requires { state_end at s ≤ length image.now }
        ensures { (result ≡ (state_in image.now at s).command) × (result < 65536) }
    {
        word16(image, at + Self::STATE_LENGTH * s + 2)
    }

    pub fn parameters(image: &[u8], at: usize, s: usize) -> usize
        requires { state_end at s ≤ length image.now }
        ensures { (result ≡ (state_in image.now at s).parameters) × (result < 256) }
    {
        usize::from(image[at + Self::STATE_LENGTH * s + 4])
    }

    pub fn first_lower(image: &[u8], at: usize, s: usize) -> usize
        requires { state_end at s ≤ length image.now }
        ensures { (result ≡ (state_in image.now at s).first_lower) × (result < 256) }
    {
        usize::from(image[at + Self::STATE_LENGTH * s + 5])
    }

    pub fn first_upper(image: &[u8], at: usize, s: usize) -> usize
        requires { state_end at s ≤ length image.now }
        ensures { (result ≡ (state_in image.now at s).first_upper) × (result < 256) }
    {
        usize::from(image[at + Self::STATE_LENGTH * s + 6])
    }

    pub fn second_lower(image: &[u8], at: usize, s: usize) -> usize
        requires { state_end at s ≤ length image.now }
        ensures { (result ≡ (state_in image.now at s).second_lower) × (result < 256) }
    {
        usize::from(image[at + Self::STATE_LENGTH * s + 7])
    }

    pub fn second_upper(image: &[u8], at: usize, s: usize) -> usize
        requires { state_end at s ≤ length image.now }
        ensures { (result ≡ (state_in image.now at s).second_upper) × (result < 256) }
    {
        usize::from(image[at + Self::STATE_LENGTH * s + 8])
    }

    // The fields of node n, where the nodes of its family begin at a place.
    pub fn kind(image: &[u8], at: usize, n: usize) -> u8
        requires { node_end at n ≤ length image.now }
        ensures { result ≡ (node_in image.now at n).kind }
    {
        image[at + Self::NODE_LENGTH * n]
    }

    pub fn item(image: &[u8], at: usize, n: usize) -> usize
        requires { node_end at n ≤ length image.now }
        ensures { (result ≡ (node_in image.now at n).item) × (result < 256) }
    {
        usize::from(image[at + Self::NODE_LENGTH * n + 1])
    }

    pub fn part_a(image: &[u8], at: usize, n: usize) -> usize
        requires { node_end at n ≤ length image.now }
        ensures { (result ≡ (node_in image.now at n).a) × (result < 65536) }
    {
        word16(image, at + Self::NODE_LENGTH * n + 2)
    }

    pub fn part_b(image: &[u8], at: usize, n: usize) -> usize
        requires { node_end at n ≤ length image.now }
        ensures { (result ≡ (node_in image.now at n).b) × (result < 65536) }
    {
        word16(image, at + Self::NODE_LENGTH * n + 4)
    }

    pub fn part_c(image: &[u8], at: usize, n: usize) -> usize
        requires { node_end at n ≤ length image.now }
        ensures { (result ≡ (node_in image.now at n).c) × (result < 65536) }
    {
        word16(image, at + Self::NODE_LENGTH * n + 6)
    }

    pub fn constant(image: &[u8], at: usize, n: usize) -> u32
        requires { node_end at n ≤ length image.now }
        ensures { result ≡ constant_in image.now at n }
    {
        word32(image, at + Self::NODE_LENGTH * n + 4)
    }

    // Refusal 1: the directory, the counts and the section lengths.
    pub fn directory_kept(image: &[u8]) -> bool
        ensures { result ≡ directory_kept_of image.now }
    {
        if image.len() < Self::DIRECTORY_LENGTH {
            return false;
        }
        offsets_kept(image)
            & section_kept(
                size(image, 0),
                Self::LABEL_LENGTH,
                Self::LEAST_LABELS,
                Self::LABELS,
            )
            & section_kept(size(image, 1), Self::REGISTER_LENGTH, 0, Self::REGISTERS)
            & section_kept(
                size(image, 2),
                Self::STATE_LENGTH,
                Self::LEAST_STATES,
                Self::STATES,
            )
            & section_kept(size(image, 3), Self::NODE_LENGTH, 0, Self::COMMANDS)
            & section_kept(size(image, 4), Self::NODE_LENGTH, 0, Self::EXPRESSIONS)
    }

    // The design that a directory describes.
    pub fn read(image: &[u8]) -> Design
        requires { DirectoryKeeps image.now }
        ensures { Describes image.now result }
    {
        Design {
            labels: size(image, 0) / Self::LABEL_LENGTH,
            registers: size(image, 1) / Self::REGISTER_LENGTH,
            states: size(image, 2) / Self::STATE_LENGTH,
            commands: size(image, 3) / Self::NODE_LENGTH,
            expressions: size(image, 4) / Self::NODE_LENGTH,
            registers_at: offset(image, 1),
            states_at: offset(image, 2),
            commands_at: offset(image, 3),
            expressions_at: offset(image, 4),
        }
    }

    // Reset writes the reset values and default children, and 0 to each binding.
    pub fn reset(image: &Image, registers: &mut [u8], targets: &mut [u8])
        requires { StatesKept (design_in image.now) × (length registers.old ≡ word_length * image.now.design.registers) × (length targets.old ≡ target_length * image.now.design.states) }
        ensures { lends registers.new targets.new ≡ lent_of (reset_areas (design_in image.now)) }
    {
        reset::reset_registers(image, registers);
        reset::clear(targets);
        reset::default_targets(image, targets);
    }
}

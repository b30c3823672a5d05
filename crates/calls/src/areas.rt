// The lengths of the areas that a host lends.
ghost use Rattle.std.specs.Prelude.{◌*◌, ◌≤◌, ◌≡◌, ◌&&◌, eqb, length};
ghost use Rattle.model.specs.Answers.{Accepted};
ghost use Rattle.model.specs.Limits.{word_length, target_length, registers_max, states_max};
ghost use Rattle.model.specs.Image.{design_of};
ghost use Rattle.model.specs.Rules.{Keeps};

use design::Design;
use design::image::Image;
use model::Answer;

// An area of so many bytes holds the registers.
pub fn register_area_kept(design: Design, registers: usize) -> bool
    requires { design.registers ≤ registers_max }
    ensures { result ≡ eqb registers (word_length * design.registers) }
{
    registers == Design::WORD_LENGTH * design.registers
}

// An area of so many bytes holds the targets, and the bindings behind them.
fn target_area_kept(design: Design, targets: usize) -> bool
    requires { design.states ≤ states_max }
    ensures { result ≡ eqb targets (target_length * design.states) }
{
    targets == Design::TARGET_LENGTH * design.states
}

// Areas of so many bytes hold both.
pub fn areas_kept(design: Design, registers: usize, targets: usize) -> bool
    requires { (design.registers ≤ registers_max) × (design.states ≤ states_max) }
    ensures { result ≡ (eqb registers (word_length * design.registers) && eqb targets (target_length * design.states)) }
{
    register_area_kept(design, registers) & target_area_kept(design, targets)
}

// The bytes that the registers take, as a count.
pub fn registers_length(image: &[u8]) -> Answer
    requires { Keeps image.now }
    ensures { result ≡ Accepted (word_length * length (design_of image.now).registers) }
{
    let image = Image::read(image);
    Ok(Design::WORD_LENGTH * image.design.registers)
}

// The bytes that the targets and the bindings take, as a count.
pub fn targets_length(image: &[u8]) -> Answer
    requires { Keeps image.now }
    ensures { result ≡ Accepted (target_length * length (design_of image.now).states) }
{
    let image = Image::read(image);
    Ok(Design::TARGET_LENGTH * image.design.states)
}

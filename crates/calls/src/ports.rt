// Port write on an image that keeps the rules.
ghost use Rattle.std.specs.Prelude.{◌*◌, ◌≡◌, length};
ghost use Rattle.model.specs.Answers.{Accepted};
ghost use Rattle.model.specs.Limits.{word_length};
ghost use Rattle.model.specs.Image.{design_of};
ghost use Rattle.model.specs.Rules.{Keeps};
ghost use Rattle.model.specs.Calls.{contents_answer, is_writable, left_as};
ghost use Rattle.design.specs.Images.{design_in, RecordsIn};
ghost use Rattle.calls.specs.Stages.{write_port_on};

use crate::areas::register_area_kept;
use design::image::Image;
use design::widths::fits;
use design::words::put_word;
use model::{Answer, Refusal, refused_at};
use running::contents::too_large;

// Register r is there, and is a port.
fn writable(image: &Image, r: usize) -> bool
    ensures { result ≡ is_writable (design_in image.now) r }
{
    if image.design.registers <= r {
        return false;
    }
    image.register_kind(r) == 1
}

// A port write on an area whose length and contents are right.
fn write_within(image: &Image, registers: &mut [u8], r: usize, value: u32) -> Answer
    requires { RecordsIn image.now × (length registers.old ≡ word_length * image.now.design.registers) × (contents_answer (design_in image.now) registers.old ≡ Accepted 0) }
    ensures { left_as result registers.new ≡ write_port_on (design_in image.now) registers.old r value }
{
    if !writable(image, r) {
        return Err(Refusal::NoPort.at(r));
    }
    let width = image.register_width(r);
    if !fits(value, width) {
        return Err(Refusal::PortValue.at(r));
    }
    put_word(registers, r, value);
    Ok(0)
}

pub fn write_port(image: &[u8], registers: &mut [u8], register: u32, value: u32) -> Answer
    requires { Keeps image.now }
    ensures { left_as result registers.new ≡ write_port_on (design_of image.now) registers.old register value }
{
    let image = Image::read(image);
    if !register_area_kept(image.design, registers.len()) {
        return Err(Refusal::Area.at(0));
    }
    refused_at(Refusal::Area, too_large(&image, registers))?;
    write_within(&image, registers, register as usize, value)
}

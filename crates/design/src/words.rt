// The register area: one word of four bytes for each register, the lowest byte first.
ghost use Rattle.std.specs.Prelude.{◌+◌, ◌*◌, ◌≤◌, ◌≡◌, length};
ghost use Rattle.model.specs.Limits.{word_length};
ghost use Rattle.model.specs.Image.{word32_at};
ghost use Rattle.design.specs.Words.{put_word as put_word_of};

use crate::Design;

// The value of register r.
pub fn word(registers: &[u8], r: usize) -> u32
    requires { word_length * r + word_length ≤ length registers.now }
    ensures { result ≡ word32_at registers.now (word_length * r) }
{
    let at = Design::WORD_LENGTH * r;
    u32::from_le_bytes([
        registers[at],
        registers[at + 1],
        registers[at + 2],
        registers[at + 3],
    ])
}

// Register r takes a value; the other registers stay as they are.
pub fn put_word(registers: &mut [u8], r: usize, v: u32)
    requires { word_length * r + word_length ≤ length registers.old }
    ensures { registers.new ≡ put_word_of registers.old r v }
{
    let at = Design::WORD_LENGTH * r;
    registers[at..at + Design::WORD_LENGTH].copy_from_slice(&v.to_le_bytes());
}

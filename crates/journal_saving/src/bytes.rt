// Parts of areas: a part taken.
ghost use Rattle.std.specs.Prelude.{◌+◌, ◌≤◌, ◌≡◌, length};
ghost use Rattle.journal_saving.specs.Bytes.{part_of};

use encoding::parts::put;

// As many bytes as the part has, from a place on.
pub fn take(bytes: &[u8], at: usize, part: &mut [u8])
    requires { at + length part.old ≤ length bytes.now }
    ensures { part.new ≡ part_of at (length part.old) bytes.now }
{
    let end = at + part.len();
    put(&bytes[at..end], part, 0);
}

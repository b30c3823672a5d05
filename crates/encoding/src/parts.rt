// Parts of areas: bytes written over a part of others.
ghost use Rattle.std.specs.Prelude.{◌+◌, ◌≤◌, ◌≡◌, length};
ghost use Rattle.encoding.specs.Parts.{overwritten_at};

// The bytes of a part over others, from a place on. Byte by byte, for the C interface: `copy_from_slice` asks the
// host's C library for memmove, and README promises that memcpy and memset are all.
pub fn put(part: &[u8], bytes: &mut [u8], at: usize)
    requires { at + length part.now ≤ length bytes.old }
    ensures { bytes.new ≡ overwritten_at at part.now bytes.old }
{
    for i in 0..part.len() {
        bytes[at + i] = part[i];
    }
}

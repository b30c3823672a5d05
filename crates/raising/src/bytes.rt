// The bytes of the raised image.
ghost use Rattle.std.specs.Prelude.{◌+◌, ◌*◌, ◌≤◌, ◌≡◌, length};
ghost use Rattle.model.specs.Limits.{register_length};
ghost use Rattle.model.specs.Raising.{put_labels as put_labels_of};

use design::Design;

// Every byte of one area into another that is as long. Byte by byte, for the C interface: `copy_from_slice` asks the
// host's C library for memmove, and README promises that memcpy and memset are all.
pub fn copy(from: &[u8], to: &mut [u8])
    requires { length to.old ≡ length from.now }
    ensures { to.new ≡ from.now }
{
    for i in 0..from.len() {
        to[i] = from[i];
    }
}

// Each label into the record of its register.
pub fn put_labels(design: Design, labels: &[u8], image: &mut [u8])
    requires { design.registers_at + register_length * length labels.now ≤ length image.old }
    ensures { image.new ≡ put_labels_of design.registers_at labels.now image.old }
{
    for (r, &label) in labels.iter().enumerate() {
        Design::put_register_label(image, design.registers_at, r, label);
    }
}

// Writers: each puts the bytes of fields, of a record or of the directory over those of an area.
ghost use Rattle.std.specs.Prelude.{◌+◌, ◌<◌, ◌≤◌, ◌≡◌, [], ◌∷◌, length};
ghost use Rattle.model.specs.Limits.{directory_length, state_length, node_length};
ghost use Rattle.encoding.specs.Encoding.{word16_bytes, state_bytes, node_bytes, pair_bytes};
ghost use Rattle.encoding.specs.Parts.{overwritten_at};
ghost use Rattle.encoding.specs.Writers.{two_pairs, three_pairs, DirectoryPut};

// A field of a byte.
pub fn put_byte(out: &mut [u8], at: usize, value: usize)
    requires { (at + 1 ≤ length out.old) × (value < 256) }
    ensures { out.new ≡ overwritten_at at (value ∷ []) out.old }
{
    out[at] = value as u8;
}

// Two fields of a byte each.
pub fn put_bytes(out: &mut [u8], at: usize, first: usize, second: usize)
    requires { (at + 2 ≤ length out.old) × (first < 256) × (second < 256) }
    ensures { out.new ≡ overwritten_at at (first ∷ second ∷ []) out.old }
{
    put_byte(out, at, first);
    put_byte(out, at + 1, second);
}

// A field of 16 bits.
pub fn put_word16(out: &mut [u8], at: usize, value: usize)
    requires { at + 2 ≤ length out.old }
    ensures { out.new ≡ overwritten_at at (word16_bytes value) out.old }
{
    put_bytes(out, at, value % 256, value / 256 % 256);
}

// Two fields of 16 bits each: a pair of the directory, or the last fields of a node.
pub fn put_pair(out: &mut [u8], at: usize, first: usize, second: usize)
    requires { at + 4 ≤ length out.old }
    ensures { out.new ≡ overwritten_at at (pair_bytes first second) out.old }
{
    put_word16(out, at, first);
    put_word16(out, at + 2, second);
}

// The first three fields of a node or of a state: two bytes, then 16 bits.
fn put_head(out: &mut [u8], at: usize, first: usize, second: usize, word: usize)
    requires { (at + 4 ≤ length out.old) × (first < 256) × (second < 256) }
    ensures { out.new ≡ overwritten_at at (first ∷ second ∷ word16_bytes word) out.old }
{
    put_bytes(out, at, first, second);
    put_word16(out, at + 2, word);
}

// A command or an expression.
pub fn put_node(out: &mut [u8], at: usize, kind: usize, item: usize, a: usize, b: usize, c: usize)
    requires { (at + node_length ≤ length out.old) × (kind < 256) × (item < 256) }
    ensures { out.new ≡ overwritten_at at (node_bytes (record { kind = kind; item = item; a = a; b = b; c = c })) out.old }
{
    put_head(out, at, kind, item, a);
    put_pair(out, at + 4, b, c);
}

// The bounds of a state's parameters.
fn put_bounds(
    out: &mut [u8],
    at: usize,
    first_lower: usize,
    first_upper: usize,
    second_lower: usize,
    second_upper: usize,
)
    requires { (at + 4 ≤ length out.old) × (first_lower < 256) × (first_upper < 256) × (second_lower < 256) × (second_upper < 256) }
    ensures { out.new ≡ overwritten_at at (first_lower ∷ first_upper ∷ second_lower ∷ second_upper ∷ []) out.old }
{
    put_bytes(out, at, first_lower, first_upper);
    put_bytes(out, at + 2, second_lower, second_upper);
}

// The last fields of a state: how many parameters it has, and their bounds.
fn put_parameters(
    out: &mut [u8],
    at: usize,
    parameters: usize,
    first_lower: usize,
    first_upper: usize,
    second_lower: usize,
    second_upper: usize,
)
    requires { (at + 5 ≤ length out.old) × (parameters < 256) × (first_lower < 256) × (first_upper < 256) × (second_lower < 256) × (second_upper < 256) }
    ensures { out.new ≡ overwritten_at at (parameters ∷ first_lower ∷ first_upper ∷ second_lower ∷ second_upper ∷ []) out.old }
{
    put_byte(out, at, parameters);
    put_bounds(
        out,
        at + 1,
        first_lower,
        first_upper,
        second_lower,
        second_upper,
    );
}

// A state.
pub fn put_state(
    out: &mut [u8],
    at: usize,
    parent: usize,
    label: usize,
    command: usize,
    parameters: usize,
    first_lower: usize,
    first_upper: usize,
    second_lower: usize,
    second_upper: usize,
)
    requires { (at + state_length ≤ length out.old) × (parent < 256) × (label < 256) × (parameters < 256) × (first_lower < 256) × (first_upper < 256) × (second_lower < 256) × (second_upper < 256) }
    ensures { out.new ≡ overwritten_at at (state_bytes (record { parent = parent; label = label; command = command; parameters = parameters; first_lower = first_lower; first_upper = first_upper; second_lower = second_lower; second_upper = second_upper })) out.old }
{
    put_head(out, at, parent, label, command);
    put_parameters(
        out,
        at + 4,
        parameters,
        first_lower,
        first_upper,
        second_lower,
        second_upper,
    );
}

// The pairs of two sections, of which the first begins at an offset.
fn put_two_pairs(out: &mut [u8], at: usize, offset: usize, first: usize, second: usize)
    requires { (at + 8 ≤ length out.old) × (offset + first < 65536) }
    ensures { out.new ≡ overwritten_at at (two_pairs offset first second) out.old }
{
    put_pair(out, at, offset, first);
    put_pair(out, at + 4, offset + first, second);
}

// The pairs of three sections.
fn put_three_pairs(
    out: &mut [u8],
    at: usize,
    offset: usize,
    first: usize,
    second: usize,
    third: usize,
)
    requires { (at + 12 ≤ length out.old) × (offset + first + second < 65536) }
    ensures { out.new ≡ overwritten_at at (three_pairs offset first second third) out.old }
{
    put_two_pairs(out, at, offset, first, second);
    put_pair(out, at + 8, offset + first + second, third);
}

// The directory, from where the first section begins and the lengths of the sections in bytes.
pub fn put_directory(
    out: &mut [u8],
    first: usize,
    labels: usize,
    registers: usize,
    states: usize,
    commands: usize,
    expressions: usize,
)
    requires { (directory_length ≤ length out.old) × (first ≡ directory_length) × (first + labels + registers + states + commands < 65536) }
    ensures { DirectoryPut labels registers states commands expressions out.old out.new }
{
    put_two_pairs(out, 0, first, labels, registers);
    put_three_pairs(
        out,
        8,
        first + labels + registers,
        states,
        commands,
        expressions,
    );
}

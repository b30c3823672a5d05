// A gate table whose directory is kept, with what the directory says: its records by their numbers.
ghost use Rattle.std.specs.Prelude.{◌+◌, ◌<◌, ◌≡◌};
ghost use Rattle.gates_model.specs.Tables.{table_of, mark_at, flip_flop_at, gate_at};
ghost use Rattle.gates_model.specs.Rules.{DirectoryKeeps};
ghost use Rattle.gates.specs.Describes.{Describes};

use crate::Gates;

#[derive(Clone, Copy)]
pub struct GateTable<'a> {
    pub bytes: &'a [u8],
    pub gates: Gates,
    ghost describes: { Describes bytes.now gates },
}

impl GateTable<'_> {
    // The table with its directory read.
    pub fn read(bytes: &[u8]) -> GateTable<'_>
        requires { DirectoryKeeps bytes.now }
        ensures { result.bytes.now ≡ bytes.now }
    {
        let gates = Gates::read(bytes);
        GateTable { bytes, gates }
    }

    // The wire of the first gate, behind the inputs and the flip-flops, and how many wires there are.
    pub fn first_gate(&self) -> usize
        ensures { result ≡ self.now.gates.inputs + self.now.gates.flipflops }
    {
        self.gates.inputs + self.gates.flipflops
    }

    pub fn wires(&self) -> usize
        ensures { result ≡ self.now.gates.inputs + self.now.gates.flipflops + self.now.gates.gates }
    {
        self.first_gate() + self.gates.gates
    }

    // The mark of input i.
    pub fn mark(&self, i: usize) -> u8
        requires { i < self.now.gates.inputs }
        ensures { result ≡ mark_at (table_of self.now.bytes.now) i }
    {
        Gates::mark(self.bytes, i)
    }

    // The fields of flip-flop i.
    pub fn next(&self, i: usize) -> usize
        requires { i < self.now.gates.flipflops }
        ensures { (result ≡ (flip_flop_at (table_of self.now.bytes.now) i).next) × (result < 65536) }
    {
        Gates::next(self.bytes, self.gates.flipflops_at, i)
    }

    pub fn start_value(&self, i: usize) -> u8
        requires { i < self.now.gates.flipflops }
        ensures { result ≡ (flip_flop_at (table_of self.now.bytes.now) i).value }
    {
        Gates::start_value(self.bytes, self.gates.flipflops_at, i)
    }

    pub fn start_mark(&self, i: usize) -> u8
        requires { i < self.now.gates.flipflops }
        ensures { result ≡ (flip_flop_at (table_of self.now.bytes.now) i).mark }
    {
        Gates::start_mark(self.bytes, self.gates.flipflops_at, i)
    }

    // The wires that gate g reads.
    pub fn first(&self, g: usize) -> usize
        requires { g < self.now.gates.gates }
        ensures { (result ≡ (gate_at (table_of self.now.bytes.now) g).first) × (result < 65536) }
    {
        Gates::first(self.bytes, self.gates.gates_at, g)
    }

    pub fn second(&self, g: usize) -> usize
        requires { g < self.now.gates.gates }
        ensures { (result ≡ (gate_at (table_of self.now.bytes.now) g).second) × (result < 65536) }
    {
        Gates::second(self.bytes, self.gates.gates_at, g)
    }
}

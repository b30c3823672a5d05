// An image whose directory is kept, with what the directory says: its records by their numbers.
ghost use Rattle.std.specs.Prelude.{◌<◌, ◌≡◌};
ghost use Rattle.model.specs.Rules.{DirectoryKeeps};
ghost use Rattle.design.specs.Records.{row_in, register_in, state_in, node_in, constant_in};
ghost use Rattle.design.specs.Describes.{Describes};

use crate::Design;

#[derive(Clone, Copy)]
pub struct Image<'a> {
    pub bytes: &'a [u8],
    pub design: Design,
    ghost describes: { Describes bytes.now design },
}

impl Image<'_> {
    // The image with its directory read.
    pub fn read(bytes: &[u8]) -> Image<'_>
        requires { DirectoryKeeps bytes.now }
        ensures { result.bytes.now ≡ bytes.now }
    {
        let design = Design::read(bytes);
        Image { bytes, design }
    }

    // The row of label i.
    pub fn row(&self, i: usize) -> usize
        requires { i < self.now.design.labels }
        ensures { (result ≡ row_in self.now.bytes.now i) × (result < 65536) }
    {
        Design::row(self.bytes, i)
    }

    // The fields of register r.
    pub fn register_label(&self, r: usize) -> usize
        requires { r < self.now.design.registers }
        ensures { (result ≡ (register_in self.now.bytes.now self.now.design.registers_at r).label) × (result < 256) }
    {
        Design::register_label(self.bytes, self.design.registers_at, r)
    }

    pub fn register_kind(&self, r: usize) -> usize
        requires { r < self.now.design.registers }
        ensures { (result ≡ (register_in self.now.bytes.now self.now.design.registers_at r).kind) × (result < 256) }
    {
        Design::register_kind(self.bytes, self.design.registers_at, r)
    }

    pub fn register_reset(&self, r: usize) -> u32
        requires { r < self.now.design.registers }
        ensures { result ≡ (register_in self.now.bytes.now self.now.design.registers_at r).reset }
    {
        Design::register_reset(self.bytes, self.design.registers_at, r)
    }

    pub fn register_width(&self, r: usize) -> usize
        requires { r < self.now.design.registers }
        ensures { (result ≡ (register_in self.now.bytes.now self.now.design.registers_at r).width) × (result < 256) }
    {
        Design::register_width(self.bytes, self.design.registers_at, r)
    }

    // The fields of state s.
    pub fn parent(&self, s: usize) -> usize
        requires { s < self.now.design.states }
        ensures { (result ≡ (state_in self.now.bytes.now self.now.design.states_at s).parent) × (result < 256) }
    {
        Design::parent(self.bytes, self.design.states_at, s)
    }

    pub fn state_label(&self, s: usize) -> usize
        requires { s < self.now.design.states }
        ensures { (result ≡ (state_in self.now.bytes.now self.now.design.states_at s).label) × (result < 256) }
    {
        Design::state_label(self.bytes, self.design.states_at, s)
    }

    pub fn state_command(&self, s: usize) -> usize
        requires { s < self.now.design.states }
        ensures { (result ≡ (state_in self.now.bytes.now self.now.design.states_at s).command) × (result < 65536) }
    {
        Design::state_command(self.bytes, self.design.states_at, s)
    }

    pub fn parameters(&self, s: usize) -> usize
        requires { s < self.now.design.states }
        ensures { (result ≡ (state_in self.now.bytes.now self.now.design.states_at s).parameters) × (result < 256) }
    {
        Design::parameters(self.bytes, self.design.states_at, s)
    }

    pub fn first_lower(&self, s: usize) -> usize
        requires { s < self.now.design.states }
        ensures { (result ≡ (state_in self.now.bytes.now self.now.design.states_at s).first_lower) × (result < 256) }
    {
        Design::first_lower(self.bytes, self.design.states_at, s)
    }

    pub fn first_upper(&self, s: usize) -> usize
        requires { s < self.now.design.states }
        ensures { (result ≡ (state_in self.now.bytes.now self.now.design.states_at s).first_upper) × (result < 256) }
    {
        Design::first_upper(self.bytes, self.design.states_at, s)
    }

    pub fn second_lower(&self, s: usize) -> usize
        requires { s < self.now.design.states }
        ensures { (result ≡ (state_in self.now.bytes.now self.now.design.states_at s).second_lower) × (result < 256) }
    {
        Design::second_lower(self.bytes, self.design.states_at, s)
    }

    pub fn second_upper(&self, s: usize) -> usize
        requires { s < self.now.design.states }
        ensures { (result ≡ (state_in self.now.bytes.now self.now.design.states_at s).second_upper) × (result < 256) }
    {
        Design::second_upper(self.bytes, self.design.states_at, s)
    }

    // The fields of command n.
    pub fn command_kind(&self, n: usize) -> u8
        requires { n < self.now.design.commands }
        ensures { result ≡ (node_in self.now.bytes.now self.now.design.commands_at n).kind }
    {
        Design::kind(self.bytes, self.design.commands_at, n)
    }

    pub fn command_item(&self, n: usize) -> usize
        requires { n < self.now.design.commands }
        ensures { (result ≡ (node_in self.now.bytes.now self.now.design.commands_at n).item) × (result < 256) }
    {
        Design::item(self.bytes, self.design.commands_at, n)
    }

    pub fn command_a(&self, n: usize) -> usize
        requires { n < self.now.design.commands }
        ensures { (result ≡ (node_in self.now.bytes.now self.now.design.commands_at n).a) × (result < 65536) }
    {
        Design::part_a(self.bytes, self.design.commands_at, n)
    }

    pub fn command_b(&self, n: usize) -> usize
        requires { n < self.now.design.commands }
        ensures { (result ≡ (node_in self.now.bytes.now self.now.design.commands_at n).b) × (result < 65536) }
    {
        Design::part_b(self.bytes, self.design.commands_at, n)
    }

    pub fn command_c(&self, n: usize) -> usize
        requires { n < self.now.design.commands }
        ensures { (result ≡ (node_in self.now.bytes.now self.now.design.commands_at n).c) × (result < 65536) }
    {
        Design::part_c(self.bytes, self.design.commands_at, n)
    }

    // The fields of expression n.
    pub fn expression_kind(&self, n: usize) -> u8
        requires { n < self.now.design.expressions }
        ensures { result ≡ (node_in self.now.bytes.now self.now.design.expressions_at n).kind }
    {
        Design::kind(self.bytes, self.design.expressions_at, n)
    }

    pub fn expression_item(&self, n: usize) -> usize
        requires { n < self.now.design.expressions }
        ensures { (result ≡ (node_in self.now.bytes.now self.now.design.expressions_at n).item) × (result < 256) }
    {
        Design::item(self.bytes, self.design.expressions_at, n)
    }

    pub fn expression_a(&self, n: usize) -> usize
        requires { n < self.now.design.expressions }
        ensures { (result ≡ (node_in self.now.bytes.now self.now.design.expressions_at n).a) × (result < 65536) }
    {
        Design::part_a(self.bytes, self.design.expressions_at, n)
    }

    pub fn expression_b(&self, n: usize) -> usize
        requires { n < self.now.design.expressions }
        ensures { (result ≡ (node_in self.now.bytes.now self.now.design.expressions_at n).b) × (result < 65536) }
    {
        Design::part_b(self.bytes, self.design.expressions_at, n)
    }

    pub fn expression_c(&self, n: usize) -> usize
        requires { n < self.now.design.expressions }
        ensures { (result ≡ (node_in self.now.bytes.now self.now.design.expressions_at n).c) × (result < 65536) }
    {
        Design::part_c(self.bytes, self.design.expressions_at, n)
    }

    // The constant of expression n.
    pub fn constant(&self, n: usize) -> u32
        requires { n < self.now.design.expressions }
        ensures { result ≡ constant_in self.now.bytes.now self.now.design.expressions_at n }
    {
        Design::constant(self.bytes, self.design.expressions_at, n)
    }
}

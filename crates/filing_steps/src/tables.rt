// The tables of a filing, on the stack.
use design::Design;

// The orders of both families of nodes, and their new numbers.
#[derive(Clone, Copy)]
pub struct Orders {
    pub commands: [u16; Design::COMMANDS],
    pub command_numbers: [u16; Design::COMMANDS],
    pub expressions: [u16; Design::EXPRESSIONS],
    pub expression_numbers: [u16; Design::EXPRESSIONS],
}

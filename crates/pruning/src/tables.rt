// The tables of a pruning, on the stack.
use design::Design;

// A table of states, one of commands and one of expressions.
#[derive(Clone, Copy)]
pub struct Tables<T> {
    pub states: [T; Design::STATES],
    pub commands: [T; Design::COMMANDS],
    pub expressions: [T; Design::EXPRESSIONS],
}

// What stays: 1 for each that does.
pub type Marks = Tables<u8>;

// The new numbers of all that stays.
pub type Numbers = Tables<u16>;

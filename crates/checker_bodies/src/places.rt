// The place of a fault as a plain number, which a recursion hands back in one register of the
// processor; an enum would go through memory at every node.
ghost use Rattle.std.specs.Prelude.{cond, min, ◌≡◌};
ghost use Rattle.checker_bodies.specs.Places.{found_among};

use design::Design;

// No place: it is past every command.
pub const NOWHERE: usize = Design::COMMANDS;

// The lower of two places.
pub fn lower(a: usize, b: usize) -> usize
    ensures { result ≡ min a b }
{
    if b < a { b } else { a }
}

// A node's own place, unless its rule is kept; no place is the one that is given, past all that a pass can charge.
pub fn charged_unless(kept: bool, n: usize, nowhere: usize) -> usize
    ensures { result ≡ cond kept nowhere n }
{
    if kept {
        return nowhere;
    }
    n
}

// What a place says, among so many commands.
pub fn found(place: usize, commands: usize) -> Option<usize>
    ensures { result ≡ found_among commands place }
{
    if place < commands {
        return Some(place);
    }
    None
}

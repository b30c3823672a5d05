// What a host lends: a value byte for each input, and the flip-flops' area, a value byte and a mark
// byte for each.
ghost use Rattle.std.specs.Prelude.{◌+◌, ◌*◌, ◌≤◌, ◌<◌, ◌≡◌, length};
ghost use Rattle.model.specs.Indices.{lowest_failing};
ghost use Rattle.gates_model.specs.Limits.{signal_length};
ghost use Rattle.gates_model.specs.Tables.{first_gate as first_gate_of};
ghost use Rattle.gates_model.specs.Signals.{signal, IsSound};
ghost use Rattle.gates_model.specs.Cycle.{signal_in};
ghost use Rattle.gates_model.specs.Calls.{lent_kept as lent_kept_of};
ghost use Rattle.gates.specs.Tables.{table_in};
ghost use Rattle.gates.specs.Codes.{code_of, put_signal as put_signal_of};
ghost use Rattle.gates.specs.Stages.{RightLengths};

use crate::Gates;
use crate::table::GateTable;

// A signal in one byte: the value in bit 0, the mark in bit 1.
pub fn code(value: u8, mark: u8) -> u8
    requires { IsSound (signal value mark) }
    ensures { result ≡ code_of (signal value mark) }
{
    value + 2 * mark
}

// The signal of flip-flop i in one byte.
pub fn signal(area: &[u8], i: usize) -> u8
    requires { (signal_length * i + signal_length ≤ length area.now) × IsSound (signal_in area.now i) }
    ensures { result ≡ code_of (signal_in area.now i) }
{
    let at = Gates::SIGNAL_LENGTH * i;
    code(area[at], area[at + 1])
}

// Flip-flop i takes a value and a mark.
pub fn put_signal(area: &mut [u8], i: usize, value: u8, mark: u8)
    requires { signal_length * i + signal_length ≤ length area.old }
    ensures { area.new ≡ put_signal_of area.old i value mark }
{
    let at = Gates::SIGNAL_LENGTH * i;
    area[at] = value;
    area[at + 1] = mark;
}

// What is lent for a wire is in range: the value of an input, or the value and the mark of a
// flip-flop.
fn lent_kept(table: &GateTable, inputs: &[u8], area: &[u8], w: usize) -> bool
    requires { RightLengths table.now.gates inputs.now area.now × (w < table.now.gates.inputs + table.now.gates.flipflops) }
    ensures { result ≡ lent_kept_of (table_in table.now) inputs.now area.now w }
{
    if w < table.gates.inputs {
        return inputs[w] <= 1;
    }
    let at = Gates::SIGNAL_LENGTH * (w - table.gates.inputs);
    (area[at] <= 1) & (area[at + 1] <= 1)
}

// The lowest wire for which something out of range is lent.
pub fn out_of_range(table: &GateTable, inputs: &[u8], area: &[u8]) -> Option<usize>
    requires { RightLengths table.now.gates inputs.now area.now }
    ensures { result ≡ lowest_failing (lent_kept_of (table_in table.now) inputs.now area.now) (first_gate_of (table_in table.now)) }
{
    (0..table.first_gate()).find(|&w| !lent_kept(table, inputs, area, w))
}

// Refusals 25 and 26 of a table: the directory, then each wire by its record.
ghost use Rattle.std.specs.Prelude.{◌+◌, ◌<◌, ◌≡◌};
ghost use Rattle.model.specs.Indices.{lowest_failing};
ghost use Rattle.gates_model.specs.Tables.{wires};
ghost use Rattle.gates_model.specs.Verdict.{input_kept as input_kept_of, flip_flop_kept, gate_kept as gate_kept_of, wire_kept as wire_kept_of, table_answer};
ghost use Rattle.gates.specs.Tables.{table_in};

use crate::Gates;
use crate::table::GateTable;
use model::{Answer, Refusal, refused_at};

// The mark of input i is 0 or 1.
fn input_kept(table: &GateTable, i: usize) -> bool
    requires { i < table.now.gates.inputs }
    ensures { result ≡ input_kept_of (table_in table.now) i }
{
    table.mark(i) <= 1
}

// Flip-flop i takes its signal from a wire of the table, and starts with a value and a mark.
fn flipflop_kept(table: &GateTable, i: usize) -> bool
    requires { i < table.now.gates.flipflops }
    ensures { result ≡ flip_flop_kept (table_in table.now) i }
{
    (table.next(i) < table.wires()) & (table.start_value(i) <= 1) & (table.start_mark(i) <= 1)
}

// Gate g reads lower wires only.
fn gate_kept(table: &GateTable, g: usize) -> bool
    requires { g < table.now.gates.gates }
    ensures { result ≡ gate_kept_of (table_in table.now) g }
{
    let own = table.first_gate() + g;
    (table.first(g) < own) & (table.second(g) < own)
}

// The record of a wire keeps the rules of its kind.
fn wire_kept(table: &GateTable, w: usize) -> bool
    requires { w < table.now.gates.inputs + table.now.gates.flipflops + table.now.gates.gates }
    ensures { result ≡ wire_kept_of (table_in table.now) w }
{
    let inputs = table.gates.inputs;
    if w < inputs {
        return input_kept(table, w);
    }
    let first_gate = table.first_gate();
    if w < first_gate {
        return flipflop_kept(table, w - inputs);
    }
    gate_kept(table, w - first_gate)
}

// The lowest wire whose record is at fault.
fn faulty(table: &GateTable) -> Option<usize>
    ensures { result ≡ lowest_failing (wire_kept_of (table_in table.now)) (wires (table_in table.now)) }
{
    (0..table.wires()).find(|&w| !wire_kept(table, w))
}

// The verdict on a table.
pub fn verdict(bytes: &[u8]) -> Answer
    ensures { result ≡ table_answer bytes.now }
{
    if !Gates::directory_kept(bytes) {
        return Err(Refusal::GateDirectory.at(0));
    }
    let table = GateTable::read(bytes);
    refused_at(Refusal::GateWire, faulty(&table))
}

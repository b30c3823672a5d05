// The wires of a cycle, a byte for each: the value in bit 0, the mark in bit 1.
ghost use Rattle.std.specs.Prelude.{◌+◌, ◌<◌, ◌≡◌, length};
ghost use Rattle.gates_model.specs.Limits.{wires_max};
ghost use Rattle.gates_model.specs.Tables.{first_gate as first_gate_of, wires as wires_of};
ghost use Rattle.gates_model.specs.Signals.{nand as nand_of};
ghost use Rattle.gates_model.specs.Cycle.{signal_at, sources, signals};
ghost use Rattle.gates.specs.Tables.{table_in, KeepsIn};
ghost use Rattle.gates.specs.Codes.{code_of, signal_of, with_wires, Carries, Lends};

use crate::areas::{code, signal};
use crate::table::GateTable;

// What a gate makes of two wires. A trusted 0 decides: the output is a trusted 1.
fn nand(a: u8, b: u8) -> u8
    requires { (a < 4) × (b < 4) }
    ensures { result ≡ code_of (nand_of (signal_of a) (signal_of b)) }
{
    if (a == 0) | (b == 0) {
        return 1;
    }
    ((a | b) & 2) + 1 - (a & b & 1)
}

// The wire of an input or a flip-flop: the value of an input is lent and its mark is the table's,
// a flip-flop's are those of its area.
fn source(table: &GateTable, inputs: &[u8], area: &[u8], w: usize) -> u8
    requires { Lends (table_in table.now) inputs.now area.now × (w < table.now.gates.inputs + table.now.gates.flipflops) }
    ensures { result ≡ code_of (signal_at (sources (table_in table.now) inputs.now area.now) w) }
{
    if w < table.gates.inputs {
        return code(inputs[w], table.mark(w));
    }
    signal(area, w - table.gates.inputs)
}

// The wires before the gates.
fn put_sources(table: &GateTable, inputs: &[u8], area: &[u8], wires: &mut [u8])
    requires { Lends (table_in table.now) inputs.now area.now × (length wires.old ≡ wires_max) }
    ensures { (wires.new ≡ with_wires (sources (table_in table.now) inputs.now area.now) (first_gate_of (table_in table.now)) wires.old) × Carries (sources (table_in table.now) inputs.now area.now) (first_gate_of (table_in table.now)) wires.new }
{
    for w in 0..table.first_gate() {
        wires[w] = source(table, inputs, area, w);
    }
}

// All wires: the gates follow in their order, and each reads lower wires.
pub fn settle(table: &GateTable, inputs: &[u8], area: &[u8], wires: &mut [u8])
    requires { KeepsIn table.now × Lends (table_in table.now) inputs.now area.now × (length wires.old ≡ wires_max) }
    ensures { (wires.new ≡ with_wires (signals (table_in table.now) inputs.now area.now) (wires_of (table_in table.now)) wires.old) × Carries (signals (table_in table.now) inputs.now area.now) (wires_of (table_in table.now)) wires.new }
{
    put_sources(table, inputs, area, wires);
    let first_gate = table.first_gate();
    for g in 0..table.gates.gates {
        let a = wires[table.first(g)];
        let b = wires[table.second(g)];
        wires[first_gate + g] = nand(a, b);
    }
}

// What a reset and a cycle write to the flip-flops' area.
ghost use Rattle.std.specs.Prelude.{◌*◌, ◌<◌, ◌≡◌, length};
ghost use Rattle.gates_model.specs.Limits.{signal_length, wires_max};
ghost use Rattle.gates_model.specs.Cycle.{cycled, started};
ghost use Rattle.gates.specs.Tables.{table_in, KeepsIn};
ghost use Rattle.gates.specs.Codes.{Lends, next_code, taken};

use crate::Gates;
use crate::areas::put_signal;
use crate::table::GateTable;
use crate::wires::settle;

// Every flip-flop takes its start value and mark.
pub fn start(table: &GateTable, area: &mut [u8])
    requires { length area.old ≡ signal_length * table.now.gates.flipflops }
    ensures { area.new ≡ started (table_in table.now) }
{
    for i in 0..table.gates.flipflops {
        put_signal(area, i, table.start_value(i), table.start_mark(i));
    }
}

// The byte of the wire that flip-flop i takes its signal from.
fn next_code(table: &GateTable, wires: &[u8], i: usize) -> u8
    requires { KeepsIn table.now × (length wires.now ≡ wires_max) × (i < table.now.gates.flipflops) }
    ensures { result ≡ next_code (table_in table.now) wires.now i }
{
    wires[table.next(i)]
}

// Every flip-flop takes the signal of its next wire.
fn take(table: &GateTable, wires: &[u8], area: &mut [u8])
    requires { KeepsIn table.now × (length wires.now ≡ wires_max) × (length area.old ≡ signal_length * table.now.gates.flipflops) }
    ensures { area.new ≡ taken (table_in table.now) wires.now }
{
    for i in 0..table.gates.flipflops {
        let code = next_code(table, wires, i);
        put_signal(area, i, code % 2, code / 2);
    }
}

// One cycle: all wires first, and then all flip-flops together.
pub fn cycle(table: &GateTable, inputs: &[u8], area: &mut [u8])
    requires { KeepsIn table.now × Lends (table_in table.now) inputs.now area.old }
    ensures { area.new ≡ cycled (table_in table.now) inputs.now area.old }
{
    let mut wires = [0u8; Gates::WIRES];
    settle(table, inputs, area, &mut wires);
    take(table, &wires, area);
}

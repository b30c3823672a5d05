// The calls on a table that keeps the rules. Nothing is written before all refusals are known.
ghost use Rattle.std.specs.Prelude.{◌*◌, ◌≡◌, ◌&&◌, eqb, length};
ghost use Rattle.gates_model.specs.Limits.{signal_length};
ghost use Rattle.gates.specs.Tables.{table_in, KeepsIn};
ghost use Rattle.gates.specs.Stages.{reset_on, cycle_on};
ghost use Rattle.model.specs.Calls.{left_as};

use crate::areas::out_of_range;
use crate::table::GateTable;
use crate::{Gates, changes};
use model::{Answer, Refusal, refused_at};

// An area has the length that holds the flip-flops.
fn area_kept(table: &GateTable, area: &[u8]) -> bool
    ensures { result ≡ eqb (length area.now) (signal_length * table.now.gates.flipflops) }
{
    area.len() == Gates::SIGNAL_LENGTH * table.gates.flipflops
}

pub fn reset(table: &GateTable, area: &mut [u8]) -> Answer
    ensures { left_as result area.new ≡ reset_on (table_in table.now) area.old }
{
    if !area_kept(table, area) {
        return Err(Refusal::Area.at(0));
    }
    changes::start(table, area);
    Ok(0)
}

// Both have the right length.
fn lengths_kept(table: &GateTable, inputs: &[u8], area: &[u8]) -> bool
    ensures { result ≡ (eqb (length inputs.now) table.now.gates.inputs && eqb (length area.now) (signal_length * table.now.gates.flipflops)) }
{
    (inputs.len() == table.gates.inputs) & area_kept(table, area)
}

pub fn cycle(table: &GateTable, inputs: &[u8], area: &mut [u8]) -> Answer
    requires { KeepsIn table.now }
    ensures { left_as result area.new ≡ cycle_on (table_in table.now) inputs.now area.old }
{
    if !lengths_kept(table, inputs, area) {
        return Err(Refusal::Area.at(0));
    }
    refused_at(Refusal::GateWire, out_of_range(table, inputs, area))?;
    changes::cycle(table, inputs, area);
    Ok(0)
}

// The functions that read the lent trace, a slice of record structs: one takes a record out, two go
// through the records and hand each to a step on plain numbers, and the replay.
ghost use Rattle.std.specs.Prelude.{◌<◌, ◌≡◌, length};
ghost use Rattle.design.specs.Resets.{lends};
ghost use Rattle.replay_model.specs.Traces.{record_at as record_at_of};
ghost use Rattle.replay_model.specs.Calls.{replay as replay_of};
ghost use Rattle.replay_steps.specs.Judging.{judged_to};
ghost use Rattle.replay_steps.specs.Replaying.{Judged};
ghost use Rattle.model.specs.Calls.{left_as};

use model::Answer;
use replay_model::TraceRecord;
use replay_steps::judging::{Judging, begin, judge_record, records_kept};
use replay_steps::preparing::{Prepared, prepare};
use replay_steps::steps::{finish, replay_step};

// Record i.
fn record_at(trace: &[TraceRecord], i: usize) -> TraceRecord
    requires { i < length trace.now }
    ensures { result ≡ record_at_of trace.now i }
{
    trace[i]
}

// Every record is judged, in their order.
fn judge_records(trace: &[TraceRecord], begun: Judging) -> Judging
    requires { begun.superseded ≡ 0 }
    ensures { result ≡ judged_to trace.now begun (length trace.now) }
{
    let mut judged = begun;
    for (i, record) in trace.iter().enumerate() {
        judged = judge_record(judged, i, record.cycle, record.register, record.value);
    }
    judged
}

// The records of a trace that is kept, each behind the cycles before it, and then the cycles that are left.
fn replay_records(
    image: &[u8],
    prepared: Prepared,
    registers: &mut [u8],
    targets: &mut [u8],
    trace: &[TraceRecord],
    judged: Judging,
) -> Answer
    requires { Judged image.now (lends registers.old targets.old) trace.now prepared judged }
    ensures { left_as result (lends registers.new targets.new) ≡ replay_of image.now (lends registers.old targets.old) trace.now prepared.count }
{
    // By number: over `&trace[..kept]` the bound of the slice was tried, and did not close.
    let kept = records_kept(prepared, judged, trace.len());
    let mut done = 0;
    for i in 0..kept {
        let record = record_at(trace, i);
        done = replay_step(
            image,
            prepared,
            registers,
            targets,
            done,
            record.cycle,
            record.register,
            record.value,
        );
    }
    finish(image, prepared, registers, targets, judged, done)
}

// Runs so many cycles, with the records of each applied before it.
pub fn replay(
    image: &[u8],
    registers: &mut [u8],
    targets: &mut [u8],
    trace: &[TraceRecord],
    count: u32,
) -> Answer
    ensures { left_as result (lends registers.new targets.new) ≡ replay_of image.now (lends registers.old targets.old) trace.now count }
{
    let prepared = prepare(image, registers, targets, count);
    let begun = begin(prepared);
    let judged = judge_records(trace, begun);
    replay_records(image, prepared, registers, targets, trace, judged)
}

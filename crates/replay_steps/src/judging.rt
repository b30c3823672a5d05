// A record of the trace is judged, on plain numbers: 23, then 13 and 17, and whether it supersedes one.
ghost use Rattle.std.specs.Prelude.{◌+◌, ◌^◌, ◌<◌, ◌≡◌, ◌&&◌, leb, ltb};
ghost use Rattle.replay_steps.specs.Judging.{judging_of, port_at, superseding, answering, unordered_at, judged_port, judged_next, answer_of, records_kept as records_kept_of};

use crate::preparing::Prepared;
use design::Design;
use model::{Answer, Refusal, refused_at};

// What is known of the records before one: the cycle of the last, the lowest that 23 refuses, 13 or 17
// at the lowest that they refuse, for each port the last cycle and one, and how many are superseded.
#[derive(Clone, Copy)]
pub struct Judging {
    pub count: u32,
    pub largest: [u32; Design::REGISTERS],
    pub previous: u32,
    pub unordered: Option<usize>,
    pub answer: Answer,
    pub last: [u32; Design::REGISTERS],
    pub superseded: usize,
}

// Where no record is judged yet.
pub fn begin(prepared: Prepared) -> Judging
    ensures { result ≡ judging_of prepared }
{
    let largest = prepared.largest;
    Judging {
        count: prepared.count,
        largest,
        previous: 0,
        unordered: None,
        answer: Ok(0),
        last: [0; Design::REGISTERS],
        superseded: 0,
    }
}

// 23: a cycle does not fall, and does not reach the count.
fn in_order(judged: Judging, cycle: u32) -> bool
    ensures { result ≡ (leb judged.previous cycle && ltb cycle judged.count) }
{
    (judged.previous <= cycle) & (cycle < judged.count)
}

// 13, then 17, of record i.
fn judge_port(judged: Judging, i: usize, register: u32, value: u32) -> Answer
    ensures { result ≡ port_at judged.largest i register value }
{
    let r = register as usize;
    if Design::REGISTERS <= r {
        return Err(Refusal::NoPort.at(i));
    }
    let largest = judged.largest[r];
    if largest == 0 {
        return Err(Refusal::NoPort.at(i));
    }
    if largest < value {
        return Err(Refusal::PortValue.at(i));
    }
    Ok(0)
}

// A record in its order that names a port and fits it.
fn supersede(mut judged: Judging, cycle: u32, register: usize) -> Judging
    requires { (cycle + 1 < 2 ^ 32) × (register < 64) × (judged.superseded + 1 < 2 ^ 64) }
    ensures { result ≡ superseding judged cycle register }
{
    let before = judged.last[register];
    judged.last[register] = cycle + 1;
    judged.previous = cycle;
    if before == cycle + 1 {
        judged.superseded += 1;
        return judged;
    }
    judged
}

// A record in its order, behind one that 13 or 17 refuses or refused by them itself.
fn refuse(mut judged: Judging, cycle: u32, answer: Answer) -> Judging
    ensures { result ≡ answering judged cycle answer }
{
    judged.previous = cycle;
    judged.answer = answer;
    judged
}

// Record i is out of its order.
fn refuse_order(mut judged: Judging, i: usize) -> Judging
    ensures { result ≡ unordered_at judged i }
{
    judged.unordered = Some(i);
    judged
}

// A record in its order.
fn judge_in_order(judged: Judging, i: usize, cycle: u32, register: u32, value: u32) -> Judging
    requires { (cycle + 1 < 2 ^ 32) × (judged.superseded + 1 < 2 ^ 64) }
    ensures { result ≡ judged_port judged i cycle register value }
{
    if judged.answer.is_err() {
        return refuse(judged, cycle, judged.answer);
    }
    let answer = judge_port(judged, i, register, value);
    if answer.is_err() {
        return refuse(judged, cycle, answer);
    }
    supersede(judged, cycle, register as usize)
}

// Record i.
pub fn judge_record(judged: Judging, i: usize, cycle: u32, register: u32, value: u32) -> Judging
    requires { judged.superseded + 1 < 2 ^ 64 }
    ensures { result ≡ judged_next judged i cycle register value }
{
    if judged.unordered.is_some() {
        return judged;
    }
    if !in_order(judged, cycle) {
        return refuse_order(judged, i);
    }
    judge_in_order(judged, i, cycle, register, value)
}

// What the replay answers.
pub fn answer(prepared: Prepared, judged: Judging) -> Answer
    ensures { result ≡ answer_of prepared judged }
{
    prepared.answer?;
    refused_at(Refusal::TraceCycle, judged.unordered)?;
    judged.answer?;
    Ok(judged.superseded)
}

// How many records are applied: all of so many, or none where the replay is refused.
pub fn records_kept(prepared: Prepared, judged: Judging, records: usize) -> usize
    ensures { result ≡ records_kept_of prepared judged records }
{
    if answer(prepared, judged).is_ok() {
        records
    } else {
        0
    }
}

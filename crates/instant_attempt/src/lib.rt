// One instant of a call, tried: it stands with its records in the trace, or it is refused and nothing has changed.
#![tactic(auto)]

ghost use Rattle.std.specs.Prelude.{◌≡◌, ◌+◌, ◌≤◌, length};
ghost use Rattle.instant_steps.specs.Sim.{instant_of};
ghost use Rattle.instant_attempt.specs.Progress.{Countable, CanTry, CanTryWithin, Tried, TriedWithin};
ghost use Rattle.instant_attempt.specs.Pass.{judged_by, after_of, ended_by, Passed};
ghost use Rattle.instant_steps.specs.Verdicts.{steps_in};
ghost use Rattle.clock.specs.Times.{latest};

use clock::Moment;
use instant_steps::{Ran, instant};
use limits::NO_LIMIT;
use little_endian::{front, put_bytes};
use refusals::Refusal;
use run_state::STATE_SIZE;
use table_words::TABLE_SIZE;

// How far a call has come: the records that it wrote are the first `used` bytes of its trace.
#[derive(Clone, Copy)]
pub struct Progress {
    pub opening: Moment,
    pub instants: u64,
    pub steps: u64,
    pub used: usize,
}

// The moment of an instant, and how far the call has come before it.
#[derive(Clone, Copy)]
pub struct Turn {
    pub at: Moment,
    pub progress: Progress,
}

// The moment of an instant, the steps that the call may do in all, and how far it has come before the instant.
#[derive(Clone, Copy)]
pub struct TurnWithin {
    pub at: Moment,
    pub has: u64,
    pub progress: Progress,
}

// Why an instant is left undone: by its first pass, the bytes that the trace has left, the steps that the call may do, and those that it did before.
fn judge(room: usize, has: u64, before: u64, ran: Option<Ran>) -> Result<Ran, Refusal>
    requires { before + steps_in ran ≤ latest }
    ensures { result ≡ judged_by room has before ran }
{
    let ran = ran.ok_or(Refusal::StillDue)?;
    if room < ran.used {
        return Err(Refusal::BufferTooShort);
    }
    if has < before + ran.steps {
        return Err(Refusal::OutOfSteps);
    }
    Ok(ran)
}

// The progress with an instant of so many steps, its records of so many bytes. "A moment without a step is no instant and is not
// counted."
fn after(at: Moment, p: Progress, steps: u64, size: usize) -> Progress
    requires { Countable at.0 p steps size }
    ensures { result ≡ after_of at.0 p steps size }
{
    if steps == 0 {
        return p;
    }
    let opening = Moment(at.0 + 1);
    Progress {
        opening,
        instants: p.instants + 1,
        steps: p.steps + steps,
        used: p.used + size,
    }
}

// The progress with an instant that stands, by its first pass and the bytes that the trace has left; or why it is left undone.
fn ended_by(room: usize, turn: TurnWithin, ran: Option<Ran>) -> Result<Progress, Refusal>
    requires { Countable turn.at.0 turn.progress (steps_in ran) room }
    ensures { result ≡ ended_by room turn ran }
{
    let p = turn.progress;
    let ran = judge(room, turn.has, p.steps, ran)?;
    Ok(after(turn.at, p, ran.steps, ran.used))
}

// The first pass over an instant, its records into the scratch, and where the instant ends. The old state is put back where the instant is left
// undone, and where its records are too many for the scratch.
fn first_pass(
    phases: &[u8],
    rules: &[u8],
    tables: &[u16; TABLE_SIZE],
    turn: TurnWithin,
    given: &[u8],
    state: &mut [u64; STATE_SIZE],
    work: &mut [u32],
    scratch: &mut [u8],
    trace: &[u8],
) -> Result<Progress, Refusal>
    requires { CanTryWithin phases.now tables.now turn state.old (length work.old) (length trace.now) }
    ensures { Passed phases.now tables.now turn state.old state.new scratch.old scratch.new trace.now
        (instant_of phases.now rules.now tables.now (length work.old) turn.at.0 given.now state.old) result }
{
    let old = *state;
    let p = turn.progress;
    let ran = instant(
        phases, rules, tables, turn.at, given, state, work, scratch, 0,
    );
    let ended = ended_by(trace.len() - p.used, turn, ran);
    if let Ok(after) = ended {
        if after.used - p.used <= scratch.len() {
            return ended;
        }
    }
    *state = old;
    ended
}

// The instant of a turn, within the steps that the call may do. Where the records of the first pass fit into the scratch they are copied,
// and otherwise a second pass, from the old state, puts them into the trace.
pub fn attempt_within(
    phases: &[u8],
    rules: &[u8],
    tables: &[u16; TABLE_SIZE],
    turn: TurnWithin,
    given: &[u8],
    state: &mut [u64; STATE_SIZE],
    work: &mut [u32],
    scratch: &mut [u8],
    trace: &mut [u8],
) -> Result<Progress, Refusal>
    requires { CanTryWithin phases.now tables.now turn state.old (length work.old) (length trace.old) }
    ensures { TriedWithin phases.now tables.now turn state.old state.new trace.old trace.new
        (instant_of phases.now rules.now tables.now (length work.old) turn.at.0 given.now state.old) result }
{
    let p = turn.progress;
    let after = first_pass(
        phases, rules, tables, turn, given, state, work, scratch, trace,
    )?;
    let size = after.used - p.used;
    if size <= scratch.len() {
        put_bytes(front(scratch, size), trace, p.used);
        return Ok(after);
    }
    let _second = instant(
        phases, rules, tables, turn.at, given, state, work, trace, p.used,
    );
    Ok(after)
}

// The instant of a turn without a limit: a promise of its own (docs/DECISIONS.md). Where the records of the first pass fit into the scratch they are
// copied, and otherwise a second pass, from the old state, puts them into the trace.
pub fn attempt(
    phases: &[u8],
    rules: &[u8],
    tables: &[u16; TABLE_SIZE],
    turn: Turn,
    given: &[u8],
    state: &mut [u64; STATE_SIZE],
    work: &mut [u32],
    scratch: &mut [u8],
    trace: &mut [u8],
) -> Result<Progress, Refusal>
    requires { CanTry phases.now tables.now turn state.old (length work.old) (length trace.old) }
    ensures { Tried phases.now tables.now turn state.old state.new trace.old trace.new
        (instant_of phases.now rules.now tables.now (length work.old) turn.at.0 given.now state.old) result }
{
    let within = TurnWithin {
        at: turn.at,
        has: NO_LIMIT,
        progress: turn.progress,
    };
    attempt_within(
        phases, rules, tables, within, given, state, work, scratch, trace,
    )
}

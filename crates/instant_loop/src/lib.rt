// Advance, behind its checks: every instant due before t, then t with the bag; the numbers, the whole run and the whole trace.
#![tactic(auto)]

ghost use Rattle.std.specs.Prelude.{◌≡◌, cond, suc, ◌≤◌, ltb, length};
ghost use Rattle.definition.specs.Limits.{max_moment};
ghost use Rattle.run_state.specs.Held.{held_in};
ghost use Rattle.instant_attempt.specs.Progress.{progress_of};
ghost use Rattle.instant_loop.specs.Ends.{Callable, Startable, given_to, answer_of, within_of, advancing_of, turned_by, advanced_by, AdvancedTo, finished_of, Outcome};

use call_answers::Advanced;
use clock::Moment;
use instant_attempt::{Progress, TurnWithin, attempt_within};
use limits::NO_LIMIT;
use refusals::Refusal;
use run_state::STATE_SIZE;
use table_words::{TABLE_SIZE, atomics_in};

// Bytes set aside for an instant's records.
const SCRATCH_SIZE: usize = 4096;

// How far a call has come, and why it stopped before its end, if it did.
#[derive(Clone, Copy)]
pub struct Ended {
    pub refusal: Option<Refusal>,
    pub progress: Progress,
}

// "Advance answers number, instants done, steps, trace bytes".
impl From<Ended> for Advanced {
    ghost from_gives = { λ ended answer. answer ≡ answer_of ended };

    fn from(ended: Ended) -> Advanced {
        let number = match ended.refusal {
            Some(refusal) => u64::from(refusal),
            None => 0,
        };
        let done = ended.progress;
        Advanced {
            number,
            instants: done.instants,
            steps: done.steps,
            trace_bytes: done.used as u64,
        }
    }
}

// The due moment where it lies before t, and t otherwise.
fn next_moment(due: u64, t: Moment) -> Moment
    ensures { result.0 ≡ cond (ltb due t.0) due t.0 }
{
    if due < t.0 { Moment(due) } else { t }
}

// What an instant is given: the bag at t, and nothing before.
fn given_to<'a>(bag: &'a [u8], at: Moment, t: Moment) -> &'a [u8]
    ensures { result.now ≡ given_to bag.now at.0 t.0 }
{
    if at.0 < t.0 { &bag[..0] } else { bag }
}

// "On success the open moment is t + 1."
fn finish(t: Moment, p: Progress) -> Ended
    requires { t.0 ≤ max_moment }
    ensures { result ≡ finished_of t.0 p }
{
    let opening = Moment(t.0 + 1);
    Ended {
        refusal: None,
        progress: Progress { opening, ..p },
    }
}

// The instants of a call that has come so far and may do `has` steps in all, on the lent state. Each takes one of t + 1 turns, so that the loop
// ends without a word about moments.
fn advance_within(
    phases: &[u8],
    rules: &[u8],
    tables: &[u16; TABLE_SIZE],
    t: Moment,
    bag: &[u8],
    has: u64,
    from: Progress,
    state: &mut [u64; STATE_SIZE],
    work: &mut [u32],
    trace: &mut [u8],
) -> Ended
    requires { Callable phases.now tables.now t.0 from state.old (length work.old) (length trace.old) }
    ensures { AdvancedTo phases.now tables.now trace.old trace.new state.new result
        (within_of phases.now rules.now tables.now (length work.old) has (length trace.old) t.0
        bag.now (suc t.0) (progress_of trace.old tables.now state.old from)) }
{
    let mut scratch = [0u8; SCRATCH_SIZE];
    let mut p = from;
    for _ in 0..t.0 + 1 {
        let at = next_moment(run_state::next_due(state), t);
        let given = given_to(bag, at, t);
        let turn = TurnWithin {
            at,
            has,
            progress: p,
        };
        let tried = attempt_within(
            phases,
            rules,
            tables,
            turn,
            given,
            state,
            work,
            &mut scratch,
            trace,
        );
        match tried {
            Ok(after) => p = after,
            Err(refusal) => {
                return Ended {
                    refusal: Some(refusal),
                    progress: p,
                };
            }
        }
        if t.0 <= at.0 {
            return finish(t, p);
        }
    }
    Ended {
        refusal: None,
        progress: p,
    }
}

// The same without a limit: a call to t cannot do so many steps.
pub fn advance_on(
    phases: &[u8],
    rules: &[u8],
    tables: &[u16; TABLE_SIZE],
    t: Moment,
    bag: &[u8],
    from: Progress,
    state: &mut [u64; STATE_SIZE],
    work: &mut [u32],
    trace: &mut [u8],
) -> Ended
    requires { Callable phases.now tables.now t.0 from state.old (length work.old) (length trace.old) }
    ensures { AdvancedTo phases.now tables.now trace.old trace.new state.new result
        (advancing_of phases.now rules.now tables.now (length work.old) (length trace.old) t.0
        bag.now (suc t.0) (progress_of trace.old tables.now state.old from)) }
{
    advance_within(
        phases, rules, tables, t, bag, NO_LIMIT, from, state, work, trace,
    )
}

// A call that may do `has` steps, from a loaded state: what stands is written into the run buffer, the records are at the front of the trace, and
// the lent state shows the rules that decided in the last instant done, so that a table with them is the definition's, whatever table it is.
pub fn turn_from(
    phases: &[u8],
    rules: &[u8],
    tables: &[u16; TABLE_SIZE],
    run: &mut [u8],
    state: &mut [u64; STATE_SIZE],
    t: Moment,
    bag: &[u8],
    has: u64,
    work: &mut [u32],
    trace: &mut [u8],
) -> Advanced
    requires { Startable tables.now t.0 (length work.old) (length run.old) }
    ensures { Outcome tables.now state.new run.new trace.new result
        (λ table. turned_by phases.now rules.now tables.now (length work.old) has t.0 bag.now
        run.old (held_in state.old) trace.old table) }
{
    let from = Progress {
        opening: run_saved::opening_of(run),
        instants: 0,
        steps: 0,
        used: 0,
    };
    instant_steps::make_ready(phases, tables, state);
    let ended = advance_within(phases, rules, tables, t, bag, has, from, state, work, trace);
    let done = ended.progress;
    run_saved::store(run, done.opening, atomics_in(tables) as usize, state);
    Advanced::from(ended)
}

// The same without a limit, in a body of its own: a function that two calls share is not inlined, and a short advance would pay for it.
pub fn advance_from(
    phases: &[u8],
    rules: &[u8],
    tables: &[u16; TABLE_SIZE],
    run: &mut [u8],
    state: &mut [u64; STATE_SIZE],
    t: Moment,
    bag: &[u8],
    work: &mut [u32],
    trace: &mut [u8],
) -> Advanced
    requires { Startable tables.now t.0 (length work.old) (length run.old) }
    ensures { Outcome tables.now state.new run.new trace.new result
        (λ table. advanced_by phases.now rules.now tables.now (length work.old) t.0 bag.now
        run.old (held_in state.old) trace.old table) }
{
    let from = Progress {
        opening: run_saved::opening_of(run),
        instants: 0,
        steps: 0,
        used: 0,
    };
    instant_steps::make_ready(phases, tables, state);
    let ended = advance_on(phases, rules, tables, t, bag, from, state, work, trace);
    let p = ended.progress;
    run_saved::store(run, p.opening, atomics_in(tables) as usize, state);
    Advanced::from(ended)
}

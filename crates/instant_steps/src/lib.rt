// An instant: all steps at one moment, at most 1,024, on a lent state. Its records are put into a lent buffer while they fit, and
// its bytes are counted in any case, so that one function serves a first pass into a small scratch and a second one into the trace.
#![tactic(auto)]

ghost use Rattle.std.specs.Prelude.{◌≡◌, ◌||◌, not, eqb, length};
ghost use Rattle.definition.specs.Lists.{is_empty};
ghost use Rattle.definition.specs.Engine.{to_bag};
ghost use Rattle.run_state.specs.Held.{held_in};
ghost use Rattle.spec_step.specs.Tables.{atomics_in};
ghost use Rattle.instant_steps.specs.Sim.{instant_of, step_of, given_at, Fit, Ready, Stepped, Begun, CanTake, CanRun};
ghost use Rattle.instant_steps.specs.Verdicts.{Judged, RulesLeft};

use clock::Moment;
use instant_records::put_step;
use limits::{MAX_STEPS, MESSAGE_SIZE};
use run_state::STATE_SIZE;
use step_due::next_end;
use step_simulator::step_once;
use table_words::{TABLE_SIZE, atomics_in};

// The steps of an instant that may stand, and where its records end.
#[derive(Clone, Copy)]
pub struct Ran {
    pub steps: u64,
    pub used: usize,
}

// "A step is taken if something is due or the given bag is not empty"
fn goes_on(due: u64, at: Moment, given: &[u8]) -> bool
    ensures { result ≡ (eqb due at.0 || not (is_empty (to_bag given.now))) }
{
    (due == at.0) | (MESSAGE_SIZE <= given.len())
}

// "A given bag belongs to the first of them."
fn given_at<'a>(given: &'a [u8], step: u64) -> &'a [u8]
    ensures { result.now ≡ given_at given.now step }
{
    if step == 0 { given } else { &given[..0] }
}

// A state that was just loaded: its due moments, and the least of them, are carried from here on.
pub fn make_ready(phases: &[u8], tables: &[u16; TABLE_SIZE], state: &mut [u64; STATE_SIZE])
    requires { Fit tables.now }
    ensures { (held_in state.new ≡ held_in state.old) × Ready phases.now tables.now state.new }
{
    let n = atomics_in(tables);
    step_due::put_ends(phases, tables, n, state);
    run_state::put_next(state, next_end(tables, state));
}

// One step, and when the state is next due after it.
fn take_step(
    phases: &[u8],
    rules: &[u8],
    tables: &[u16; TABLE_SIZE],
    state: &mut [u64; STATE_SIZE],
    at: Moment,
    given: &[u8],
    work: &mut [u32],
) -> usize
    requires { CanTake phases.now tables.now at.0 state.old (length work.old) }
    ensures { Stepped phases.now tables.now state.old state.new work.new result
        (step_of phases.now rules.now tables.now (length work.old) at.0 given.now state.old) }
{
    let n = atomics_in(tables);
    let count = step_once(phases, rules, tables, n, state, at, given, work);
    run_state::put_next(state, next_end(tables, state));
    count
}

// Before the first step of an instant no atomic has had an external part: of the instant before nothing is left. A moment without a step is no
// instant, and leaves its rules.
fn begin(at: Moment, given: &[u8], state: &mut [u64; STATE_SIZE])
    ensures { Begun at.0 given.now state.old state.new }
{
    if goes_on(run_state::next_due(state), at, given) {
        run_state::clear_rules(state);
    }
}

// The instant at a moment with the given messages, its records put from `from` on; none where something is still due after all steps. The state is
// changed in place: where the instant does not stand, what it holds afterwards is left open.
pub fn instant(
    phases: &[u8],
    rules: &[u8],
    tables: &[u16; TABLE_SIZE],
    at: Moment,
    given: &[u8],
    state: &mut [u64; STATE_SIZE],
    work: &mut [u32],
    out: &mut [u8],
    from: usize,
) -> Option<Ran>
    requires { CanRun phases.now tables.now at.0 state.old (length work.old) from (length out.old) }
    ensures { Judged phases.now tables.now at.0 from out.old out.new state.new
        (instant_of phases.now rules.now tables.now (length work.old) at.0 given.now state.old) result
        × RulesLeft (atomics_in tables.now) state.old state.new
        (instant_of phases.now rules.now tables.now (length work.old) at.0 given.now state.old) }
{
    run_state::whole(state);
    begin(at, given, state);
    let mut used = from;
    let mut k: u64 = 0;
    // It goes on while something is due, and not over a range of numbers.
    while goes_on(run_state::next_due(state), at, given_at(given, k)) {
        if k == MAX_STEPS {
            return None;
        }
        let part = given_at(given, k);
        let count = take_step(phases, rules, tables, state, at, part, work);
        used = put_step(out, used, at, k, work, count);
        k += 1;
    }
    Some(Ran { steps: k, used })
}

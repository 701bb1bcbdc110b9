// Saved runs: which bytes fit a model, the state that they hold, and a state's bytes.
#![tactic(auto)]

ghost use Rattle.std.specs.Prelude.{◌≡◌, ◌&&◌, ◌||◌, ◌+◌, ◌≤◌, ◌<◌, ltb, eqb, length, get_or};
ghost use Rattle.std.proofs.lemmas.List.Edits.{sets};
ghost use Rattle.definition.specs.Bytes.{number_at, stored};
ghost use Rattle.definition.specs.Limits.{max_components};
ghost use Rattle.definition.specs.Model.{no_phase, atomics};
ghost use Rattle.definition.specs.SavedRun.{run_length, entry_bytes, run_bytes, not_before, run_fits};
ghost use Rattle.model_records.specs.Values.{components_in, phases_in};
ghost use Rattle.clock.specs.After.{due_after};
ghost use Rattle.clock.specs.Times.{time_of};
ghost use Rattle.run_state.specs.Held.{held_in, entries_of};
ghost use Rattle.run_saved.specs.Runs.{Loaded, bare, entry_of, entry_at, entries_fit_in, held_at, entry_rows, run_in, start_entries};

use clock::{Due, Moment};
use limits::{COUNT_SIZE, LATEST_OPENING, RUN_COUNT_AT, RUN_ENTRY_SIZE, RUN_HEAD_SIZE};
use model_records::{Component, component_at, component_count};
use run_state::STATE_SIZE;

// The bytes of a run of n atomics.
pub fn run_size(n: usize) -> usize
    requires { n ≤ max_components }
    ensures { result ≡ run_length n }
{
    RUN_HEAD_SIZE + RUN_ENTRY_SIZE * n
}

#[derive(Clone, Copy)]
pub struct Entry {
    pub phase: u8,
    pub last: Moment,
}

// ---- reading

pub fn opening_of(run: &[u8]) -> Moment
    ensures { result.0 ≡ number_at 8 0 run.now }
{
    Moment(little_endian::u64_at(run, 0))
}

pub fn entry_at(run: &[u8], i: usize) -> Entry
    requires { i ≤ max_components }
    ensures { entry_of result ≡ entry_at run.now i }
{
    let at = RUN_HEAD_SIZE + RUN_ENTRY_SIZE * i;
    Entry {
        phase: little_endian::byte_at(run, at),
        last: Moment(little_endian::u64_at(run, at + 1)),
    }
}

// The state that the bytes of a run of n atomics hold; when something is due is not carried yet.
pub fn load(run: &[u8], n: usize, state: &mut [u64; STATE_SIZE])
    requires { n ≤ max_components }
    ensures { Loaded run.now n (held_in state.new) }
{
    run_state::whole(state);
    for i in 0..n {
        let e = entry_at(run, i);
        run_state::put_at(state, i, e.phase, e.last);
    }
}

// ---- fitting

// The due moment of an atomic whose phase records begin at `first`.
fn entry_due(phases: &[u8], first: usize, e: Entry) -> Due
    requires { first ≤ 65535 }
    ensures { time_of result ≡ due_after e.last.0 (get_or (phases_in phases.now) (first + e.phase) no_phase).advance }
{
    let phase = model_records::phase_at(phases, first + e.phase as usize);
    clock::due_after(e.last, phase.advance)
}

// The lines that the entry of an atomic keeps, against the open moment.
fn entry_fits(own: Component, due: Due, e: Entry, opening: Moment) -> bool
    ensures { result ≡ (ltb e.phase own.phases && (ltb e.last.0 opening.0 || (eqb opening.0 0 && eqb e.last.0 0))
        && not_before opening.0 (time_of due)) }
{
    let last = e.last;
    let begun = last.is_before(opening) | ((opening.0 == 0) & (last.0 == 0));
    (e.phase < own.phases) & begun & clock::not_before(opening, due)
}

fn entries_fit(components: &[u8], phases: &[u8], run: &[u8]) -> bool
    requires { length (components_in components.now) ≤ max_components }
    ensures { result ≡ entries_fit_in components.now phases.now run.now }
{
    let opening = opening_of(run);
    let n = component_count(components);
    let mut k: usize = 0;
    let mut first: usize = 0;
    for c in 0..n {
        let own = component_at(components, c);
        let e = entry_at(run, k);
        let fit = entry_fits(own, entry_due(phases, first, e), e, opening);
        let atomic = own.kind == 1;
        if atomic & !fit {
            return false;
        }
        k += usize::from(atomic);
        first += own.phases as usize;
    }
    true
}

// The bytes are those of a run of the model with these components and phases.
pub fn fits(components: &[u8], phases: &[u8], run: &[u8]) -> bool
    requires { length (components_in components.now) ≤ max_components }
    ensures { result ≡ run_fits (bare components.now phases.now) run.now }
{
    let n = model_records::atomic_count(components);
    let opening = opening_of(run);
    let long = RUN_HEAD_SIZE + RUN_ENTRY_SIZE * n <= run.len();
    let counted = little_endian::u16_at(run, RUN_COUNT_AT) as usize == n;
    let in_time = opening.0 <= LATEST_OPENING;
    long & counted & in_time & entries_fit(components, phases, run)
}

// ---- writing

fn put_entry(run: &mut [u8], state: &[u64; STATE_SIZE], i: usize)
    requires { (i < max_components) × (run_length (i + 1) ≤ length run.old) }
    ensures { run.new ≡ sets run.old (run_length i) (entry_bytes (held_at (held_in state.now) i)) }
{
    let at = RUN_HEAD_SIZE + RUN_ENTRY_SIZE * i;
    let since = run_state::last_at(state, i);
    little_endian::put_number(run, at, 1, run_state::phase_at(state, i) as u64);
    little_endian::put_number(run, at + 1, 8, since.0);
}

fn put_entries(run: &mut [u8], n: usize, state: &[u64; STATE_SIZE])
    requires { (n ≤ max_components) × (run_length n ≤ length run.old) }
    ensures { run.new ≡ sets run.old (run_length 0) (entry_rows (held_in state.now) 0 n) }
{
    for i in 0..n {
        put_entry(run, state, i);
    }
}

// The run of the first n atomics of a state, at the front of a buffer that is long enough; the bytes beyond it stay.
pub fn store(run: &mut [u8], opening: Moment, n: usize, state: &[u64; STATE_SIZE])
    requires { (n ≤ max_components) × (run_length n ≤ length run.old) }
    ensures { run.new ≡ stored (run_bytes (run_in opening.0 n (held_in state.now))) run.old }
{
    little_endian::put_number(run, 0, 8, opening.0);
    little_endian::put_number(run, RUN_COUNT_AT, COUNT_SIZE, n as u64);
    put_entries(run, n, state);
}

// ---- the start

// Every atomic in its initial phase since moment 0.
pub fn start_state(components: &[u8], state: &mut [u64; STATE_SIZE])
    requires { length (components_in components.now) ≤ max_components }
    ensures { entries_of (length (atomics (components_in components.now))) (held_in state.new) ≡ start_entries (components_in components.now) }
{
    run_state::whole(state);
    let n = component_count(components);
    let mut k: usize = 0;
    for c in 0..n {
        let own = component_at(components, c);
        run_state::put_at(state, k, own.initial, Moment(0));
        k += usize::from(own.kind == 1);
    }
}

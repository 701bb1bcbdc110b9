// When something is due, by the tables of a call: an atomic by its phase and last moment, a coupled component by the least among its
// children. Due moments are carried in the state, by position, as numbers: 2^64 - 1 for never, which is no moment that a run comes to.
#![tactic(auto)]

ghost use Rattle.std.specs.Prelude.{◌≡◌, ◌+◌, ◌<◌, ◌≤◌, min, get_or};
ghost use Rattle.definition.specs.Limits.{max_components};
ghost use Rattle.model_records.specs.Values.{phase_of, phases_in};
ghost use Rattle.run_state.specs.Held.{held_in, ends_in, EndPut};
ghost use Rattle.spec_step.specs.Tables.{positions_at, atomic_at};
ghost use Rattle.spec_step.specs.Ranges.{InRange};
ghost use Rattle.spec_step.specs.Carried.{end_below, next_end};
ghost use Rattle.spec_step.specs.TableStep.{record_of, phase_in};
ghost use Rattle.step_due.specs.Due.{end_for, CarriedIn};

use clock::Moment;
use limits::{MAX_COMPONENTS, NEVER_MOMENT};
use model_records::Phase;
use run_state::STATE_SIZE;
use table_words::{
    CHILD_AT, KINDS_AT, NUMBERS_AT, PHASES_AT, POSITIONS_AT, SIBLING_AT, TABLE_SIZE, row_in,
};

// The number of the record of phase p of component c.
pub fn record_of(tables: &[u16; TABLE_SIZE], c: u16, p: u8) -> usize
    requires { c < max_components }
    ensures { result ≡ record_of tables.now c p }
{
    row_in(tables, PHASES_AT, c) as usize + p as usize
}

pub fn phase_in(phases: &[u8], tables: &[u16; TABLE_SIZE], c: u16, p: u8) -> Phase
    requires { c < max_components }
    ensures { phase_of result ≡ phase_in (phases_in phases.now) tables.now c p }
{
    model_records::phase_at(phases, record_of(tables, c, p))
}

// ---- due moments by position

// When the atomic c is due that is in phase p since a moment.
fn end_since(phases: &[u8], tables: &[u16; TABLE_SIZE], c: u16, p: u8, since: Moment) -> u64
    requires { c < max_components }
    ensures { result ≡ end_for phases.now tables.now c p since.0 }
{
    let own = phase_in(phases, tables, c, p);
    clock::due_number(clock::due_after(since, own.advance))
}

// The due moment of the atomic c at a position, which is in phase p, is carried anew. Component and phase are handed in: they were known a
// moment ago, and to load them again would wait for the store.
pub fn put_end(
    phases: &[u8],
    tables: &[u16; TABLE_SIZE],
    c: u16,
    p: u8,
    state: &mut [u64; STATE_SIZE],
    i: u8,
)
    requires { (i < max_components) × (c < max_components) }
    ensures { EndPut state.old state.new i
        (end_for phases.now tables.now c p (get_or (held_in state.old).last i 0)) }
{
    let position = i as usize;
    let since = run_state::last_at(state, position);
    run_state::put_end(state, position, end_since(phases, tables, c, p, since));
}

// The due moments of n atomics.
pub fn put_ends(phases: &[u8], tables: &[u16; TABLE_SIZE], n: u8, state: &mut [u64; STATE_SIZE])
    requires { (n ≤ max_components) × InRange tables.now }
    ensures { (held_in state.new ≡ held_in state.old) × CarriedIn phases.now tables.now n state.new }
{
    run_state::whole(state);
    for i in 0..n {
        let c = row_in(tables, NUMBERS_AT, i as u16);
        let p = run_state::phase_at(state, i as usize);
        put_end(phases, tables, c, p, state, i);
    }
}

// ---- the least of them over the component tree

fn lesser(a: u64, b: u64) -> u64
    ensures { result ≡ min a b }
{
    if a <= b { a } else { b }
}

fn is_atomic(tables: &[u16; TABLE_SIZE], c: u16) -> bool
    requires { c < max_components }
    ensures { result ≡ atomic_at tables.now c }
{
    row_in(tables, KINDS_AT, c) == 1
}

// When the atomic c is due.
fn end_of(tables: &[u16; TABLE_SIZE], state: &[u64; STATE_SIZE], c: u16) -> u64
    requires { (c < max_components) × InRange tables.now }
    ensures { result ≡ get_or (ends_in state.now) (get_or tables.now (positions_at + c) 0) 0 }
{
    run_state::end_at(state, row_in(tables, POSITIONS_AT, c) as usize)
}

// "A coupled component's earliest due moment is the least among its children": children are numbered above their parent, so the remaining
// component numbers fall. An atomic child is looked up in place: a call for each would cost more than the look-up.
fn end_below(tables: &[u16; TABLE_SIZE], state: &[u64; STATE_SIZE], c: u16) -> u64
    requires { (c < max_components) × InRange tables.now }
    ensures { result ≡ end_below tables.now (ends_in state.now) max_components c }
{
    if is_atomic(tables, c) {
        return end_of(tables, state, c);
    }
    let mut least = NEVER_MOMENT;
    let mut d = row_in(tables, CHILD_AT, c);
    for _ in 0..MAX_COMPONENTS {
        if d == 0 {
            return least;
        }
        if is_atomic(tables, d) {
            least = lesser(least, end_of(tables, state, d));
        } else {
            least = lesser(least, end_below(tables, state, d));
        }
        d = row_in(tables, SIBLING_AT, d);
    }
    least
}

// The whole model's next due moment: the root's.
pub fn next_end(tables: &[u16; TABLE_SIZE], state: &[u64; STATE_SIZE]) -> u64
    requires { InRange tables.now }
    ensures { result ≡ next_end tables.now (ends_in state.now) }
{
    end_below(tables, state, 0)
}

// What a step reads before any transition: the mark of each component, which is 0 where nothing below it is due, and an atomic's phase
// record's number and 1 where it is due; and for each component whether something may reach its inputs.
#![tactic(auto)]

ghost use Rattle.std.specs.Prelude.{◌≡◌, ◌-◌, ◌<◌, suc, get_or, set};
ghost use Rattle.definition.specs.Limits.{max_components, port_count};
ghost use Rattle.definition.specs.Engine.{to_bag};
ghost use Rattle.run_state.specs.Held.{held_in, ends_in};
ghost use Rattle.spec_step.specs.Tables.{count_at};
ghost use Rattle.spec_step.specs.TableStep.{record_of, raised, may_reach, reached_from};
ghost use Rattle.spec_step.specs.Ranges.{InRange};
ghost use Rattle.spec_step.specs.Carried.{end_mark, end_marked};
ghost use Rattle.spec_step.specs.Flags.{marks_in, reached_in};
ghost use Rattle.step_collect.specs.Collected.{ComponentOf, NodeOf};
ghost use Rattle.step_marks.specs.Filled.{AtomicsOf, HasMarked, HasReached, raised_at, all_marks, any_source, all_reached};

use clock::Moment;
use limits::{MAX_COMPONENTS, MAX_COUPLINGS, MESSAGE_SIZE, PORT_COUNT};
use run_state::STATE_SIZE;
use step_collect::{first_link, input_node, may_come, next_link, source_of};
use table_words::{
    COUNT_AT, FLAGS_SIZE, NUMBERS_AT, PARENTS_AT, PHASES_AT, TABLE_SIZE, mark_at, row_in, word_in,
};

// ---- marks

// The mark of component c that is due in phase p.
fn mark_for(tables: &[u16; TABLE_SIZE], c: u16, p: u8) -> u32
    requires { c < max_components }
    ensures { result ≡ suc (record_of tables.now c p) }
{
    row_in(tables, PHASES_AT, c) as u32 + p as u32 + 1
}

// The mark of the atomic c at position i.
fn mark_of(tables: &[u16; TABLE_SIZE], state: &[u64; STATE_SIZE], at: Moment, i: u8, c: u16) -> u32
    requires { (i < max_components) × (c < max_components) }
    ensures { result ≡ end_mark tables.now at.0 (held_in state.now).phase (ends_in state.now) i c }
{
    let position = i as usize;
    if run_state::end_at(state, position) == at.0 {
        mark_for(tables, c, run_state::phase_at(state, position))
    } else {
        0
    }
}

// The mark of component c.
fn put_mark(flags: &mut [u32; FLAGS_SIZE], c: u16, mark: u32)
    requires { c < max_components }
    ensures { HasMarked flags.old flags.new (set (marks_in flags.old) c mark) }
{
    let at = c as usize;
    flags[at] = mark;
}

fn mark_atomics(
    tables: &[u16; TABLE_SIZE],
    n: u8,
    state: &[u64; STATE_SIZE],
    at: Moment,
    flags: &mut [u32; FLAGS_SIZE],
)
    requires { AtomicsOf tables.now n }
    ensures { HasMarked flags.old flags.new
        (end_marked tables.now at.0 (held_in state.now).phase (ends_in state.now) n 0 (marks_in flags.old)) }
{
    for i in 0..n {
        let c = row_in(tables, NUMBERS_AT, i as u16);
        let mark = mark_of(tables, state, at, i, c);
        put_mark(flags, c, mark);
    }
}

// The parent of component c is marked where c is.
fn mark_parent(tables: &[u16; TABLE_SIZE], c: u16, flags: &mut [u32; FLAGS_SIZE])
    requires { ComponentOf tables.now c }
    ensures { HasMarked flags.old flags.new (raised_at tables.now c (marks_in flags.old)) }
{
    if mark_at(flags, c as usize) != 0 {
        put_mark(flags, row_in(tables, PARENTS_AT, c), 1);
    }
}

fn mark_parents(tables: &[u16; TABLE_SIZE], flags: &mut [u32; FLAGS_SIZE])
    requires { InRange tables.now }
    ensures { HasMarked flags.old flags.new
        (raised tables.now (get_or tables.now count_at 0 - 1) (marks_in flags.old)) }
{
    let count = word_in(tables, COUNT_AT);
    for c in (1..count).rev() {
        mark_parent(tables, c, flags);
    }
}

// ---- what may be reached

fn any_source(tables: &[u16; TABLE_SIZE], flags: &[u32; FLAGS_SIZE], target: u32) -> bool
    requires { NodeOf tables.now target }
    ensures { result ≡ any_source tables.now flags.now target }
{
    let mut link = first_link(tables, target);
    for _ in 0..MAX_COUPLINGS {
        if link == 0 {
            return false;
        }
        if may_come(flags, source_of(tables, link)) {
            return true;
        }
        link = next_link(tables, link);
    }
    false
}

fn may_reach(tables: &[u16; TABLE_SIZE], flags: &[u32; FLAGS_SIZE], c: u16) -> bool
    requires { ComponentOf tables.now c }
    ensures { result ≡ may_reach tables.now (marks_in flags.now) (reached_in flags.now) c port_count 0 }
{
    for q in 0..PORT_COUNT {
        if any_source(tables, flags, input_node(c, q)) {
            return true;
        }
    }
    false
}

// 1 where something may reach component c, else 0.
fn put_reach(flags: &mut [u32; FLAGS_SIZE], c: u16, up: u32)
    requires { c < max_components }
    ensures { HasReached flags.old flags.new (set (reached_in flags.old) c up) }
{
    let at = MAX_COMPONENTS + c as usize;
    flags[at] = up;
}

fn flag_components(tables: &[u16; TABLE_SIZE], flags: &mut [u32; FLAGS_SIZE])
    requires { InRange tables.now }
    ensures { HasReached flags.old flags.new
        (reached_from tables.now (marks_in flags.old) (get_or tables.now count_at 0 - 1) 1 (reached_in flags.old)) }
{
    let count = word_in(tables, COUNT_AT);
    for c in 1..count {
        let up = u32::from(may_reach(tables, flags, c));
        put_reach(flags, c, up);
    }
}

// ---- both, over zeros

// The marks of n atomics, by their phases and due moments, and of the components above them.
pub fn mark(
    tables: &[u16; TABLE_SIZE],
    n: u8,
    state: &[u64; STATE_SIZE],
    at: Moment,
    flags: &mut [u32; FLAGS_SIZE],
)
    requires { AtomicsOf tables.now n }
    ensures { HasMarked flags.old flags.new
        (all_marks tables.now n at.0 (held_in state.now).phase (ends_in state.now) (marks_in flags.old)) }
{
    mark_atomics(tables, n, state, at, flags);
    mark_parents(tables, flags);
}

// What may be reached, by the marks; the root where something is given.
pub fn reach(tables: &[u16; TABLE_SIZE], given: &[u8], flags: &mut [u32; FLAGS_SIZE])
    requires { InRange tables.now }
    ensures { HasReached flags.old flags.new
        (all_reached tables.now (to_bag given.now) (marks_in flags.old) (reached_in flags.old)) }
{
    put_reach(flags, 0, u32::from(MESSAGE_SIZE <= given.len()));
    flag_components(tables, flags);
}

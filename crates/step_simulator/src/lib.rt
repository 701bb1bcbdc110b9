// One step of the whole nest at a moment: its flags are read first, then each atomic's bag is pulled and the atomic changes, and the
// root's output bag is pulled and sorted. The buffer for the bags is lent from the call.
#![tactic(auto)]

ghost use Rattle.std.specs.Prelude.{◌≡◌, ◌<◌, length};
ghost use Rattle.definition.specs.Limits.{max_components};
ghost use Rattle.definition.specs.Engine.{to_bag};
ghost use Rattle.run_state.specs.Held.{held_in};
ghost use Rattle.spec_step.specs.Ranges.{InRange};
ghost use Rattle.step_collect.specs.Collected.{root_keys_for};
ghost use Rattle.step_transition.specs.Changes.{Changed};
ghost use Rattle.step_simulator.specs.Simulator.{table_step, is_still, changed_one, part_of_one, changed_all, parts_of_all};
ghost use Rattle.step_simulator.specs.Simulator.{CanChange, Changeable, AllChanged, RootBag, CanStep, HasStepped};

use clock::Moment;
use run_state::STATE_SIZE;
use step_collect::{collect_bag, collect_root};
use table_words::{FLAGS_SIZE, NUMBERS_AT, TABLE_SIZE, mark_at, reach_at, row_in};

// Nothing of component c changes: it is not due, and nothing may reach it. What is given reaches the root whatever its flag.
fn is_still(flags: &[u32; FLAGS_SIZE], c: u16) -> bool
    requires { c < max_components }
    ensures { result ≡ is_still flags.now c }
{
    let place = c as usize;
    (mark_at(flags, place) == 0) & ((c != 0) & (reach_at(flags, place) == 0))
}

// The atomic at position i: its bag is pulled into `work`, and it changes with its due moment.
fn change_one(
    phases: &[u8],
    rules: &[u8],
    tables: &[u16; TABLE_SIZE],
    flags: &[u32; FLAGS_SIZE],
    given: &[u8],
    state: &mut [u64; STATE_SIZE],
    at: Moment,
    i: u8,
    work: &mut [u32],
)
    requires { CanChange phases.now tables.now state.old i (length work.old) }
    ensures { Changed phases.now tables.now state.old state.new i
        (changed_one phases.now rules.now tables.now flags.now
        (length work.old) at.0 given.now (held_in state.old) i)
        (part_of_one phases.now rules.now tables.now flags.now
        (length work.old) at.0 given.now (held_in state.old) i) }
{
    let c = row_in(tables, NUMBERS_AT, i as u16);
    if is_still(flags, c) {
        return;
    }
    let k = collect_bag(phases, tables, flags, given, c, work);
    let due = mark_at(flags, c as usize) != 0;
    let bag = &work[..k];
    step_transition::transition(phases, rules, tables, state, at, i, c, due, bag);
}

// All n atomics, one after the other: the flags were read before, so the order does not matter.
fn change_all(
    phases: &[u8],
    rules: &[u8],
    tables: &[u16; TABLE_SIZE],
    n: u8,
    flags: &[u32; FLAGS_SIZE],
    given: &[u8],
    state: &mut [u64; STATE_SIZE],
    at: Moment,
    work: &mut [u32],
)
    requires { Changeable phases.now tables.now n state.old (length work.old) }
    ensures { AllChanged phases.now tables.now n state.old state.new
        (changed_all phases.now rules.now tables.now flags.now
        (length work.old) at.0 given.now n 0 (held_in state.old))
        (parts_of_all phases.now rules.now tables.now flags.now
        (length work.old) at.0 given.now n 0 (held_in state.old)) }
{
    run_state::whole(state);
    for i in 0..n {
        change_one(phases, rules, tables, flags, given, state, at, i, work);
    }
}

// The root's output bag, sorted, at the front of `work`: a quarter of it has room for the largest. What the rest holds afterwards is left
// open.
fn root_bag(
    phases: &[u8],
    tables: &[u16; TABLE_SIZE],
    flags: &[u32; FLAGS_SIZE],
    work: &mut [u32],
) -> usize
    requires { InRange tables.now }
    ensures { RootBag (length work.old) work.new result
        (root_keys_for phases.now tables.now flags.now) }
{
    let quarter = work.len() / 4;
    let count = collect_root(phases, tables, flags, &mut work[..quarter]);
    sort::sort(work, count);
    count
}

// One step of n atomics at a moment, with the given messages: phases, last moments and due moments are changed in place. An atomic's bag has
// room for as many messages as `work` has words, and the root's, which stands sorted at its front afterwards, for a quarter.
pub fn step_once(
    phases: &[u8],
    rules: &[u8],
    tables: &[u16; TABLE_SIZE],
    n: u8,
    state: &mut [u64; STATE_SIZE],
    at: Moment,
    given: &[u8],
    work: &mut [u32],
) -> usize
    requires { CanStep phases.now tables.now n at.0 state.old (length work.old) }
    ensures { HasStepped phases.now tables.now n state.old state.new work.new result
        (table_step phases.now rules.now tables.now n (length work.old)
        at.0 (to_bag given.now) (held_in state.old)) }
{
    let mut flags = [0u32; FLAGS_SIZE];
    step_marks::mark(tables, n, state, at, &mut flags);
    step_marks::reach(tables, given, &mut flags);
    change_all(phases, rules, tables, n, &flags, given, state, at, work);
    root_bag(phases, tables, &flags, work)
}

// The transitions of an atomic: internal, external, confluent in both orders, or none. The elapsed time is the atomic's own.
#![tactic(auto)]

ghost use Rattle.std.specs.Prelude.{◌≡◌, map, ◌/◌, ◌%◌, ◌≤◌, ◌<◌, get_or, length};
ghost use Rattle.std.proofs.Math.Option.{some};
ghost use Rattle.definition.specs.Limits.{max_components, max_atomic_bag};
ghost use Rattle.definition.specs.Model.{no_rule};
ghost use Rattle.model_records.specs.Values.{phases_in, rules_in};
ghost use Rattle.law_base.specs.Keys.{message_of};
ghost use Rattle.spec_step.specs.TableStep.{phase_or, rule_in, phase_in, confluent_in, confluent_rule};
ghost use Rattle.step_transition.specs.Changes.{nowhere, led_of, lead_in, Led, lead_of, part_of, Leads, change_of, AtomicAt, Changed};

use clock::{Moment, Stay};
use limits::NO_POSITION;
use run_state::STATE_SIZE;
use step_due::phase_in;
use step_rule::Elapsed;
use table_words::{ORDERS_AT, RULES_FROM_AT, RULES_TO_AT, TABLE_SIZE, half_open_in, row_in};

// The next phase of phase p.
fn next_of(phases: &[u8], tables: &[u16; TABLE_SIZE], c: u16, p: u8) -> u8
    requires { c < max_components }
    ensures { result ≡ (phase_in (phases_in phases.now) tables.now c p).next }
{
    let phase = phase_in(phases, tables, c, p);
    phase.next
}

fn advance_of(phases: &[u8], tables: &[u16; TABLE_SIZE], c: u16, p: u8) -> Stay
    requires { c < max_components }
    ensures { result.0 ≡ (phase_in (phases_in phases.now) tables.now c p).advance }
{
    let phase = phase_in(phases, tables, c, p);
    Stay(phase.advance as u64)
}

// What an external part answers is one number, as a state holds it: a phase, above it the position of a rule, and above both whether it leads
// nowhere. An enum or a struct would go through memory, in two stores that are read as one.
const PHASE_VALUES: u32 = 256;

const RULE_VALUES: u32 = 65536;

const NOWHERE: u32 = PHASE_VALUES * RULE_VALUES;

fn told(rule: u16, phase: u8) -> u32
    ensures { (result < nowhere) × (result % 256 ≡ phase) × (result / 256 % 65536 ≡ rule) }
{
    rule as u32 * PHASE_VALUES + phase as u32
}

fn phase_told(answer: u32) -> u8
    ensures { result ≡ answer % 256 }
{
    (answer % PHASE_VALUES) as u8
}

fn rule_told(answer: u32) -> u16
    ensures { result ≡ answer / 256 % 65536 }
{
    (answer / PHASE_VALUES % RULE_VALUES) as u16
}

// The phase that the rule at position i leads to.
fn next_by(rules: &[u8], i: u16) -> u8
    ensures { result ≡ (get_or (rules_in rules.now) i no_rule).next }
{
    let rule = model_records::rule_at(rules, i as usize);
    rule.next
}

// The rule that decides for component c in phase p, and the phase that it leads to: the search's position tells whether there is one.
fn decided(
    rules: &[u8],
    tables: &[u16; TABLE_SIZE],
    c: u16,
    p: u8,
    elapsed: Stay,
    bag: &[u32],
) -> u32
    requires { (c < max_components) × (length bag.now ≤ max_atomic_bag) }
    ensures { Led result (lead_in tables.now (rules_in rules.now) c p elapsed.0 (map message_of bag.now))
        (rule_in tables.now (rules_in rules.now) c p elapsed.0 (map message_of bag.now)) }
{
    let first = row_in(tables, RULES_FROM_AT, c);
    let end = row_in(tables, RULES_TO_AT, c);
    let since = Elapsed {
        time: elapsed,
        half_open: half_open_in(tables),
    };
    let Some(i) = step_rule::deciding(rules, first, end, c, p, since, bag) else {
        return NOWHERE + told(NO_POSITION, 0);
    };
    told(i, next_by(rules, i))
}

// The phase after the external part of a confluent transition: without a rule it stays.
fn phase_after(p: u8, found: u32) -> u8
    ensures { result ≡ phase_or p (led_of found) }
{
    if found < NOWHERE {
        phase_told(found)
    } else {
        p
    }
}

// "order 0 takes the next phase, then the external transition with elapsed time 0; order 1 the external one with elapsed time equal to the
// advance, then the next phase of where it led": the phase, and the rule of the external part.
fn confluent(
    phases: &[u8],
    rules: &[u8],
    tables: &[u16; TABLE_SIZE],
    c: u16,
    p: u8,
    bag: &[u32],
) -> u32
    requires { (c < max_components) × (length bag.now ≤ max_atomic_bag) }
    ensures { Led result (some (confluent_in (phases_in phases.now) tables.now (rules_in rules.now) c p (map message_of bag.now)))
        (confluent_rule (phases_in phases.now) tables.now (rules_in rules.now) c p (map message_of bag.now)) }
{
    if row_in(tables, ORDERS_AT, c) == 0 {
        let next = next_of(phases, tables, c, p);
        let found = decided(rules, tables, c, next, Stay(0), bag);
        return told(rule_told(found), phase_after(next, found));
    }
    let advance = advance_of(phases, tables, c, p);
    let found = decided(rules, tables, c, p, advance, bag);
    let led = phase_after(p, found);
    told(rule_told(found), next_of(phases, tables, c, led))
}

// Where the transition of the atomic c at position i leads that has messages in its bag, due or not, and the rule of its external part. "where
// no rule holds, the external transition keeps both phase and last moment": it leads nowhere. What the search found tells that, and not the
// phase: a rule may lead into the same one.
fn lead(
    phases: &[u8],
    rules: &[u8],
    tables: &[u16; TABLE_SIZE],
    state: &[u64; STATE_SIZE],
    at: Moment,
    i: u8,
    c: u16,
    due: bool,
    bag: &[u32],
) -> u32
    requires { (i < max_components) × (c < max_components) × (length bag.now ≡ 0 → ⊥) × (length bag.now ≤ max_atomic_bag) }
    ensures { Leads result
        (lead_of phases.now rules.now tables.now at.0 state.now i c due bag.now)
        (part_of phases.now rules.now tables.now at.0 state.now i c due bag.now) }
{
    let position = i as usize;
    let p = run_state::phase_at(state, position);
    if due {
        return confluent(phases, rules, tables, c, p, bag);
    }
    let elapsed = at.since(run_state::last_at(state, position));
    decided(rules, tables, c, p, elapsed, bag)
}

// The transition of the atomic c at position i, due or not, with its bag: its entry is set and its due moment carried anew, or neither; and the
// rule of its external part is put, where it has one.
pub fn transition(
    phases: &[u8],
    rules: &[u8],
    tables: &[u16; TABLE_SIZE],
    state: &mut [u64; STATE_SIZE],
    at: Moment,
    i: u8,
    c: u16,
    due: bool,
    bag: &[u32],
)
    requires { AtomicAt phases.now tables.now state.old i c bag.now }
    ensures { Changed phases.now tables.now state.old state.new i
        (change_of phases.now rules.now tables.now at.0 state.old i c due bag.now)
        (part_of phases.now rules.now tables.now at.0 state.old i c due bag.now) }
{
    run_state::whole(state);
    let position = i as usize;
    if bag.len() == 0 {
        if due {
            let next = next_of(phases, tables, c, run_state::phase_at(state, position));
            run_state::put_at(state, position, next, at);
            step_due::put_end(phases, tables, c, next, state, i);
        }
        return;
    }
    let answer = lead(phases, rules, tables, state, at, i, c, due, bag);
    if NOWHERE <= answer {
        run_state::put_no_rule(state, position);
        return;
    }
    let p = phase_told(answer);
    run_state::put_led(state, position, p, at, rule_told(answer));
    step_due::put_end(phases, tables, c, p, state, i);
}

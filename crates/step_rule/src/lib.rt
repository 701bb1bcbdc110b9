// The deciding rule: "the first rule in file order whose conditions all hold decides". It is answered by its position, not by the
// phase it leads to. A bag is a slice of message keys, port times 65,536 and value.
#![tactic(auto)]

ghost use Rattle.std.specs.Prelude.{◌≡◌, ◌+◌, ◌*◌, ◌/◌, ◌<◌, ◌≤◌, min, map, length, slice_index};
ghost use Rattle.definition.specs.Limits.{rule_size, max_atomic_bag};
ghost use Rattle.definition.specs.Lists.{count};
ghost use Rattle.definition.specs.Atomic.{up_to_end, within_elapsed, meets, holds};
ghost use Rattle.model_records.specs.Values.{rule_of, rules_in};
ghost use Rattle.law_base.specs.Keys.{message_of};
ghost use Rattle.law_base.specs.Ranges.{ranges_of};
ghost use Rattle.spec_step.specs.TableStep.{deciding_in};
ghost use Rattle.step_rule.specs.Search.{found_of, head_of, between, end_ticks};

use clock::Stay;
use limits::{NEVER_FIELD, RULE_SIZE};
use model_records::Rule;
use std::num::wrapping_sub_u32;

// How long an atomic has been in its phase, and whether its model excludes the high ends of elapsed ranges.
#[derive(Clone, Copy)]
pub struct Elapsed {
    pub time: Stay,
    pub half_open: bool,
}

// How many keys of the bag lie between two. A bag of an atomic has at most 16,384 messages, so 16 bits are enough for a count of them. How far a
// key lies above `low` is one comparison for two: a key below wraps to more than any width.
fn count_between(bag: &[u32], low: u32, high: u32) -> u16
    requires { length bag.now ≤ max_atomic_bag } // so that no count overflows
    ensures { result ≡ count (between low high) bag.now }
{
    if high < low {
        return 0;
    }
    let width = high - low;
    let mut n: u16 = 0;
    for i in 0..bag.len() {
        let above = wrapping_sub_u32(bag[i], low);
        if above <= width {
            n += 1;
        }
    }
    n
}

// How many messages of the bag meet the rule: those on its port with a value in its range lie between two keys.
fn count_meeting(rule: Rule, bag: &[u32]) -> u16
    requires { length bag.now ≤ max_atomic_bag }
    ensures { result ≡ count (meets (rule_of rule)) (map message_of bag.now) }
{
    let port = rule.port as u32 * 65536;
    count_between(bag, port + rule.low as u32, port + rule.high as u32)
}

// The high end as a tick of its range: one where it is included, none where it is not.
fn end_ticks(elapsed: Elapsed) -> u64
    ensures { (result ≡ end_ticks (ranges_of elapsed.half_open)) × (result ≤ 1) }
{
    if elapsed.half_open { 0 } else { 1 }
}

// Up to the high end, or short of it. A sum and one comparison, since the ticks of the end are the same for every rule of a search: two
// comparisons, of which the flag chooses one, cost a search some hundredths more.
fn up_to_end(elapsed: Elapsed, high: u32) -> bool
    ensures { result ≡ up_to_end (ranges_of elapsed.half_open) elapsed.time.0 high }
{
    elapsed.time.0 < high as u64 + end_ticks(elapsed)
}

fn within_elapsed(rule: Rule, elapsed: Elapsed) -> bool
    ensures { result ≡ within_elapsed (ranges_of elapsed.half_open) (rule_of rule) elapsed.time.0 }
{
    let low = rule.low_elapsed as u64;
    let high = rule.high_elapsed;
    (low <= elapsed.time.0) & (up_to_end(elapsed, high) | (high == NEVER_FIELD))
}

// No two bytes make this number.
const NO_HEAD: u32 = 65536;

// Component and phase as one number, the head of their rules; a component whose number is no byte has no rule.
fn head_of(component: u16, phase: u8) -> u32
    ensures { result ≡ head_of component phase }
{
    if component < 256 {
        component as u32 + 256 * phase as u32
    } else {
        NO_HEAD
    }
}

// The bag is looked at only where the other conditions hold. Component and phase are compared as heads: one test for two.
fn rule_holds(rule: Rule, component: u16, phase: u8, elapsed: Elapsed, bag: &[u32]) -> bool
    requires { length bag.now ≤ max_atomic_bag }
    ensures { result ≡ holds (ranges_of elapsed.half_open) component phase elapsed.time.0 (map message_of bag.now) (rule_of rule) }
{
    let own = head_of(rule.component as u16, rule.phase);
    if (own == head_of(component, phase)) & within_elapsed(rule, elapsed) {
        rule.least <= count_meeting(rule, bag)
    } else {
        false
    }
}

// ---- the search over rules as structs

// The position of the deciding rule among those from `first` up to `end` of a lent slice.
fn deciding_in(
    rules: &[Rule],
    first: u16,
    end: u16,
    component: u16,
    phase: u8,
    elapsed: Elapsed,
    bag: &[u32],
) -> Option<u16>
    requires { (end ≤ length rules.now) × (length bag.now ≤ max_atomic_bag) }
    ensures { found_of result ≡ deciding_in (ranges_of elapsed.half_open) (map rule_of rules.now) first end component phase elapsed.time.0 (map message_of bag.now) }
{
    for i in first..end {
        if rule_holds(rules[i as usize], component, phase, elapsed, bag) {
            return Some(i);
        }
    }
    None
}

// ---- the search: a rule of another component or phase is passed over by its first two bytes, which are one read

// The head of the rule whose record stands at `at`.
fn head_at(rules: &[u8], at: usize) -> u32
    requires { at + 1 < length rules.now }
    ensures { result ≡ slice_index rules.now at + 256 * slice_index rules.now (at + 1) }
{
    rules[at] as u32 + 256 * rules[at + 1] as u32
}

// The position i, where the rule there decides, or none. Its record stands at `at`; it is read only where the head fits.
fn decided_at(
    rules: &[u8],
    i: u16,
    at: usize,
    head: u32,
    component: u16,
    phase: u8,
    elapsed: Elapsed,
    bag: &[u32],
) -> Option<u16>
    requires { (i < length rules.now / rule_size) × (at ≡ rule_size * i) × (head ≡ head_of component phase) × (length bag.now ≤ max_atomic_bag) }
    ensures { found_of result ≡ deciding_in (ranges_of elapsed.half_open) (rules_in rules.now) i (i + 1) component phase elapsed.time.0 (map message_of bag.now) }
{
    if head_at(rules, at) != head {
        return None;
    }
    let rule = model_records::rule_in(rules, i as usize);
    let j = deciding_in(&[rule], 0, 1, component, phase, elapsed, bag)?;
    let position = i + j;
    Some(position)
}

// Where the search stops: at `end`, or after the last record where that comes first.
fn stop_before(rules: &[u8], end: u16) -> u16
    ensures { result ≡ min (length rules.now / rule_size) end }
{
    let count = rules.len() / RULE_SIZE;
    if count < end as usize {
        count as u16
    } else {
        end
    }
}

// The deciding rule from i on, where no record is left: all rules there are alike, so it is the first of them, or none.
fn decided_past(
    rules: &[u8],
    i: u16,
    end: u16,
    component: u16,
    phase: u8,
    elapsed: Elapsed,
    bag: &[u32],
) -> Option<u16>
    requires { (min (length rules.now / rule_size) end ≤ i) × (length bag.now ≤ max_atomic_bag) }
    ensures { found_of result ≡ deciding_in (ranges_of elapsed.half_open) (rules_in rules.now) i end component phase elapsed.time.0 (map message_of bag.now) }
{
    if end <= i {
        return None;
    }
    let rule = model_records::rule_at(rules, i as usize);
    if rule_holds(rule, component, phase, elapsed, bag) {
        return Some(i);
    }
    None
}

// The position of the deciding rule among those from `first` up to `end`.
pub fn deciding(
    rules: &[u8],
    first: u16,
    end: u16,
    component: u16,
    phase: u8,
    elapsed: Elapsed,
    bag: &[u32],
) -> Option<u16>
    requires { length bag.now ≤ max_atomic_bag }
    ensures { found_of result ≡ deciding_in (ranges_of elapsed.half_open) (rules_in rules.now) first end component phase elapsed.time.0 (map message_of bag.now) }
{
    let stop = stop_before(rules, end);
    let head = head_of(component, phase);
    let mut at = RULE_SIZE * (first as usize);
    for i in first..stop {
        let here = decided_at(rules, i, at, head, component, phase, elapsed, bag);
        if let Some(j) = here {
            return Some(j);
        }
        at += RULE_SIZE;
    }
    let next = if first < stop { stop } else { first };
    decided_past(rules, next, end, component, phase, elapsed, bag)
}

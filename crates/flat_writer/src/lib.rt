// The flat form's bytes in a lent buffer, section by section, each where the one before it ends; every byte beyond them is left as it was.
#![tactic(auto)]

ghost use Rattle.std.specs.Prelude.{◌≡◌, map, ◌+◌, ◌*◌, ◌≤◌, length, take};
ghost use Rattle.std.proofs.lemmas.List.Edits.{sets};
ghost use Rattle.definition.specs.Lists.{concat};
ghost use Rattle.definition.specs.Limits.{max_phases, max_rules, max_routes, rule_size, fifth_size};
ghost use Rattle.definition.specs.Records.{component_bytes, phase_bytes, rule_bytes, coupling_bytes};
ghost use Rattle.definition.specs.File.{section_bytes, ranges_bytes};
ghost use Rattle.definition.specs.Pinned.Decoder.{to_rule};
ghost use Rattle.model_records.specs.Values.{component_of, components_in, phases_in, rules_in};
ghost use Rattle.law_base.specs.Keys.{coupling_of};
ghost use Rattle.spec_step.specs.Tables.{ranges_in};
ghost use Rattle.flat_writer.specs.Written.{under_root, atomics_by, components_by, rule_by, flat_written, ranges_size, flat_size};

use flat_ranks::rank_of;
use limits::{
    COMPONENT_SIZE, COUNT_SIZE, COUPLING_SIZE, FIFTH_SIZE, HALF_OPEN_BYTE, PHASE_SIZE, RULE_SIZE,
};
use little_endian::{byte_at, front, put_bytes, put_number, rest};
use model_records::{Component, component_at, phase_count, rule_count};
use table_words::{NUMBERS_AT, RANGES_AT, word_at};

// ---- components

// An atomic under the root.
fn put_atomic(k: Component, out: &mut [u8], at: usize)
    requires { at + 5 ≤ length out.old }
    ensures { out.new ≡ sets out.old at (component_bytes (under_root (component_of k))) }
{
    out[at] = 1;
    out[at + 1] = 0;
    out[at + 2] = k.phases;
    out[at + 3] = k.initial;
    out[at + 4] = k.order;
}

// Behind the count and the root, n atomics by position.
fn put_atomics(components: &[u8], tables: &[u16], n: u8, out: &mut [u8])
    requires { 7 + 5 * n ≤ length out.old }
    ensures { out.new ≡ sets out.old 7 (concat (map component_bytes (atomics_by (components_in components.now) tables.now n))) }
{
    for i in 0..n {
        let c = word_at(tables, NUMBERS_AT + i as usize);
        let k = component_at(components, c as usize);
        put_atomic(k, out, 7 + COMPONENT_SIZE * i as usize);
    }
}

fn put_components(components: &[u8], tables: &[u16], n: u8, out: &mut [u8])
    requires { 7 + 5 * n ≤ length out.old }
    ensures { out.new ≡ sets out.old 0 (section_bytes component_bytes (components_by (components_in components.now) tables.now n)) }
{
    put_number(out, 0, COUNT_SIZE, (n as usize + 1) as u64);
    put_number(out, COUNT_SIZE, COMPONENT_SIZE, 0);
    put_atomics(components, tables, n, out);
}

// ---- phases, as they were read

fn put_phases(phases: &[u8], out: &mut [u8], at: usize)
    requires { at + 2 + 18 * length (phases_in phases.now) ≤ length out.old }
    ensures { out.new ≡ sets out.old at (section_bytes phase_bytes (phases_in phases.now)) }
{
    let n = phase_count(phases);
    put_number(out, at, COUNT_SIZE, n as u64);
    let part = front(phases, PHASE_SIZE * n);
    put_bytes(part, out, at + COUNT_SIZE);
}

// ---- rules, their components renumbered

fn put_rule(rule: &[u8], tables: &[u16], out: &mut [u8], at: usize)
    requires { (length rule.now ≡ rule_size) × (at + 18 ≤ length out.old) }
    ensures { out.new ≡ sets out.old at (rule_bytes (rule_by tables.now (to_rule rule.now))) }
{
    let rank = rank_of(tables, byte_at(rule, 0) as u32);
    put_number(out, at, 1, rank as u64);
    let kept = front(rest(rule, 1), RULE_SIZE - 1);
    put_bytes(kept, out, at + 1);
}

fn put_rule_list(rules: &[u8], tables: &[u16], n: usize, out: &mut [u8], at: usize)
    requires { (n ≡ length (rules_in rules.now)) × (at + 18 * n ≤ length out.old) }
    ensures { out.new ≡ sets out.old at (concat (map rule_bytes (map (rule_by tables.now) (rules_in rules.now)))) }
{
    for i in 0..n {
        let rule = front(rest(rules, RULE_SIZE * i), RULE_SIZE);
        put_rule(rule, tables, out, at + RULE_SIZE * i);
    }
}

fn put_rules(rules: &[u8], tables: &[u16], out: &mut [u8], at: usize)
    requires { at + 2 + 18 * length (rules_in rules.now) ≤ length out.old }
    ensures { out.new ≡ sets out.old at (section_bytes rule_bytes (map (rule_by tables.now) (rules_in rules.now))) }
{
    let n = rule_count(rules);
    put_number(out, at, COUNT_SIZE, n as u64);
    put_rule_list(rules, tables, n, out, at + COUNT_SIZE);
}

// ---- couplings: the rows, one number each

fn put_row(row: u32, out: &mut [u8], at: usize)
    requires { at + 4 ≤ length out.old }
    ensures { out.new ≡ sets out.old at (coupling_bytes (coupling_of row)) }
{
    out[at] = (row / 16777216 % 256) as u8;
    out[at + 1] = (row / 65536 % 256) as u8;
    out[at + 2] = (row / 256 % 256) as u8;
    out[at + 3] = (row % 256) as u8;
}

fn put_row_list(rows: &[u32], n: usize, out: &mut [u8], at: usize)
    requires { (n ≤ length rows.now) × (at + 4 * n ≤ length out.old) }
    ensures { out.new ≡ sets out.old at (concat (map coupling_bytes (map coupling_of (take n rows.now)))) }
{
    for i in 0..n {
        put_row(rows[i], out, at + COUPLING_SIZE * i);
    }
}

fn put_rows(rows: &[u32], n: usize, out: &mut [u8], at: usize)
    requires { (n ≤ length rows.now) × (at + 2 + 4 * n ≤ length out.old) }
    ensures { out.new ≡ sets out.old at (section_bytes coupling_bytes (map coupling_of (take n rows.now))) }
{
    put_number(out, at, COUNT_SIZE, n as u64);
    put_row_list(rows, n, out, at + COUNT_SIZE);
}

// ---- the fifth section, where the model has one

fn ranges_size(tables: &[u16]) -> usize
    ensures { (result ≡ ranges_size (ranges_in tables.now)) × (result ≤ fifth_size) }
{
    if word_at(tables, RANGES_AT) != 0 {
        FIFTH_SIZE
    } else {
        0
    }
}

fn put_ranges(tables: &[u16], out: &mut [u8], at: usize)
    requires { at + ranges_size (ranges_in tables.now) ≤ length out.old }
    ensures { out.new ≡ sets out.old at (ranges_bytes (ranges_in tables.now)) }
{
    if word_at(tables, RANGES_AT) != 0 {
        put_number(out, at, COUNT_SIZE, 1);
        out[at + COUNT_SIZE] = HALF_OPEN_BYTE;
    }
}

// ---- the whole

// How many bytes the flat form has.
pub fn flat_size(phases: &[u8], rules: &[u8], tables: &[u16], n: u8, count: usize) -> usize
    requires { (length (phases_in phases.now) ≤ max_phases) × (length (rules_in rules.now) ≤ max_rules) × (count ≤ max_routes) }
    ensures { result ≡ flat_size phases.now rules.now tables.now n count }
{
    13 + COMPONENT_SIZE * n as usize
        + PHASE_SIZE * phase_count(phases)
        + RULE_SIZE * rule_count(rules)
        + COUPLING_SIZE * count
        + ranges_size(tables)
}

pub fn put_flat(
    components: &[u8],
    phases: &[u8],
    rules: &[u8],
    tables: &[u16],
    n: u8,
    rows: &[u32],
    count: usize,
    out: &mut [u8],
)
    requires { (count ≤ length rows.now) × (flat_size phases.now rules.now tables.now n count ≤ length out.old) }
    ensures { out.new ≡ flat_written components.now phases.now rules.now tables.now n
        (take count rows.now) out.old }
{
    put_components(components, tables, n, out);
    let second = 7 + COMPONENT_SIZE * n as usize;
    put_phases(phases, out, second);
    let third = second + COUNT_SIZE + PHASE_SIZE * phase_count(phases);
    put_rules(rules, tables, out, third);
    let fourth = third + COUNT_SIZE + RULE_SIZE * rule_count(rules);
    put_rows(rows, count, out, fourth);
    let fifth = fourth + COUNT_SIZE + COUPLING_SIZE * count;
    put_ranges(tables, out, fifth);
}

// The tables of a call by component, by position among the atomics and by rule, filled from a model's records.
#![tactic(auto)]

ghost use Rattle.std.specs.Prelude.{◌≡◌, ◌+◌, ◌-◌, ◌≤◌, ◌<◌, length};
ghost use Rattle.definition.specs.Limits.{max_components, max_rules};
ghost use Rattle.definition.specs.Model.{atomics};
ghost use Rattle.model_records.specs.Values.{component_of, components_in, rules_in};
ghost use Rattle.spec_step.specs.Tables.{table_size};
ghost use Rattle.table_words.specs.Writes.{column, put_in};
ghost use Rattle.table_components.specs.Columns.{field_of, field_at, fields_before, number_at, numbered, rule_names, rule_starts, rule_ends, by_component, by_rule, by_parent};

use limits::{MAX_COMPONENTS, RULE_SIZE};
use model_records::Component;
use table_words::{
    CHILD_AT, KINDS_AT, NUMBERS_AT, ORDERS_AT, PARENTS_AT, PHASES_AT, POSITIONS_AT, RULES_FROM_AT,
    RULES_TO_AT, SIBLING_AT,
};

// What a table by component is made of. An enum, and no closure: it names the field in the contracts and laws.
#[derive(Clone, Copy)]
pub enum Field {
    Kind,
    Parent,
    Order,
    Phases,
    Atomic,
}

fn field_of(k: Component, which: Field) -> u8
    ensures { result ≡ field_of which (component_of k) }
{
    match which {
        Field::Kind => k.kind,
        Field::Parent => k.parent,
        Field::Order => k.order,
        Field::Phases => k.phases,
        Field::Atomic => u8::from(k.kind == 1),
    }
}

fn field_at(components: &[u8], which: Field, c: usize) -> u8
    ensures { result ≡ field_at which (components_in components.now) c }
{
    field_of(model_records::component_at(components, c), which)
}

// A field by component.
fn put_fields(components: &[u8], which: Field, at: usize, t: &mut [u16])
    requires { at + length (components_in components.now) ≤ length t.old }
    ensures { t.new ≡ column at (field_at which (components_in components.now)) (length (components_in components.now)) 0 t.old }
{
    let n = model_records::component_count(components);
    for c in 0..n {
        t[at + c] = field_at(components, which, c) as u16;
    }
}

// The sum of a field over the components before each.
fn put_sums(components: &[u8], which: Field, at: usize, t: &mut [u16])
    requires { (length (components_in components.now) ≤ max_components) × (at + length (components_in components.now) ≤ length t.old) }
    ensures { t.new ≡ column at (fields_before which (components_in components.now)) (length (components_in components.now)) 0 t.old }
{
    let n = model_records::component_count(components);
    let mut total: u16 = 0;
    for c in 0..n {
        t[at + c] = total;
        total += field_at(components, which, c) as u16;
    }
}

// How many components there are, as a word.
pub fn count_word(components: &[u8]) -> u16
    requires { length (components_in components.now) ≤ max_components }
    ensures { result ≡ length (components_in components.now) }
{
    model_records::component_count(components) as u16
}

// How many of them are atomic, as a word.
pub fn atomics_word(components: &[u8]) -> u16
    requires { length (components_in components.now) ≤ max_components }
    ensures { result ≡ length (atomics (components_in components.now)) }
{
    model_records::atomic_count(components) as u16
}

// Component c at position i, where it is an atomic; the next position.
fn put_number(components: &[u8], c: u16, i: u16, t: &mut [u16]) -> u16
    requires { (i < max_components) × (length t.old ≡ table_size) }
    ensures { (t.new, result) ≡ number_at (components_in components.now) c (t.old, i) }
{
    if model_records::is_atomic(components, c as usize) {
        t[NUMBERS_AT + i as usize] = c;
        i + 1
    } else {
        i
    }
}

// The component numbers of the atomics, by position.
fn put_numbers(components: &[u8], t: &mut [u16])
    requires { (length (components_in components.now) ≤ max_components) × (length t.old ≡ table_size) }
    ensures { t.new ≡ (numbered (components_in components.now) (length (components_in components.now)) 0 (t.old, 0)).0 }
{
    let n = count_word(components);
    let mut i: u16 = 0;
    for c in 0..n {
        i = put_number(components, c, i, t);
    }
}

// Every table by component that its record gives.
pub fn fill_components(components: &[u8], t: &mut [u16])
    requires { (length (components_in components.now) ≤ max_components) × (length t.old ≡ table_size) }
    ensures { t.new ≡ by_component (components_in components.now) t.old }
{
    put_numbers(components, t);
    put_sums(components, Field::Atomic, POSITIONS_AT, t);
    put_fields(components, Field::Kind, KINDS_AT, t);
    put_fields(components, Field::Order, ORDERS_AT, t);
    put_sums(components, Field::Phases, PHASES_AT, t);
    put_fields(components, Field::Parent, PARENTS_AT, t);
}

// The row of the component that rule i names holds v, where the region has such a row.
fn put_named(t: &mut [u16], at: usize, rules: &[u8], i: u16, v: u16)
    requires { (i < length (rules_in rules.now)) × (at + max_components ≤ length t.old) }
    ensures { t.new ≡ put_in at max_components (rule_names (rules_in rules.now) i) v t.old }
{
    let c = little_endian::byte_at(rules, RULE_SIZE * i as usize);
    table_words::put_in(t, at, MAX_COMPONENTS, c as usize, v);
}

fn rule_word(rules: &[u8]) -> u16
    requires { length (rules_in rules.now) ≤ max_rules }
    ensures { result ≡ length (rules_in rules.now) }
{
    model_records::rule_count(rules) as u16
}

fn put_rule_starts(rules: &[u8], t: &mut [u16])
    requires { (length (rules_in rules.now) ≤ max_rules) × (length t.old ≡ table_size) }
    ensures { t.new ≡ rule_starts (rules_in rules.now) (length (rules_in rules.now)) t.old }
{
    for i in (0..rule_word(rules)).rev() {
        put_named(t, RULES_FROM_AT, rules, i, i);
    }
}

fn put_rule_ends(rules: &[u8], t: &mut [u16])
    requires { (length (rules_in rules.now) ≤ max_rules) × (length t.old ≡ table_size) }
    ensures { t.new ≡ rule_ends (rules_in rules.now) (length (rules_in rules.now)) 0 t.old }
{
    let n = rule_word(rules);
    for i in 0..n {
        put_named(t, RULES_TO_AT, rules, i, i + 1);
    }
}

// The range of the rules that name each component.
pub fn fill_rules(rules: &[u8], t: &mut [u16])
    requires { (length (rules_in rules.now) ≤ max_rules) × (length t.old ≡ table_size) }
    ensures { t.new ≡ by_rule (rules_in rules.now) t.old }
{
    put_rule_starts(rules, t);
    put_rule_ends(rules, t);
}

// One less, or 0.
fn less_one(n: u16) -> u16
    ensures { result ≡ n - 1 }
{
    if 0 < n { n - 1 } else { 0 }
}

// First child and next sibling of each component.
pub fn fill_children(components: &[u8], t: &mut [u16])
    requires { (length (components_in components.now) ≤ max_components) × (length t.old ≡ table_size) }
    ensures { t.new ≡ by_parent (components_in components.now) t.old }
{
    let mut parents = [0u16; MAX_COMPONENTS];
    put_fields(components, Field::Parent, 0, &mut parents);
    let n = less_one(count_word(components));
    table_words::link_all(&parents, n, CHILD_AT, MAX_COMPONENTS, SIBLING_AT, t);
}

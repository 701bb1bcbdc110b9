// The records of a model, read from the slice that holds a section's records. A reader `.._in` asks that there is such a record; past the
// slice's end a reader `.._at` has zeros, so that it asks nothing.
#![tactic(auto)]

ghost use Rattle.std.specs.Prelude.{◌≡◌, ◌/◌, ◌<◌, length, get_or};
ghost use Rattle.definition.specs.Limits.{phase_size};
ghost use Rattle.definition.specs.Model.{no_phase, no_rule, no_coupling, component_at, is_atomic, is_child, atomics, phases_before};
ghost use Rattle.definition.specs.Records.{message_at};
ghost use Rattle.law_bytes.specs.Parts.{row};
ghost use Rattle.model_records.specs.Values.{component_of, message_of, phase_of, rule_of, coupling_of, components_in, phases_in, rules_in, couplings_in};

use limits::{COMPONENT_SIZE, COUPLING_SIZE, PHASE_SIZE, RULE_SIZE};

// Kind (0 coupled, 1 atomic), parent, phase count, initial phase, order. Kind and order are numbers, and no enums: a record is read before it is
// judged, and any byte may stand there.
#[derive(Clone, Copy, Default)]
pub struct Component {
    pub kind: u8,
    pub parent: u8,
    pub phases: u8,
    pub initial: u8,
    pub order: u8,
}

// What a slot holds.
#[derive(Clone, Copy, Default)]
pub struct Message {
    pub port: u8,
    pub value: u16,
}

// Advance, next phase, output count, four slots.
#[derive(Clone, Copy, Default)]
pub struct Phase {
    pub advance: u32,
    pub next: u8,
    pub output_count: u8,
    pub slot0: Message,
    pub slot1: Message,
    pub slot2: Message,
    pub slot3: Message,
}

#[derive(Clone, Copy, Default)]
pub struct Rule {
    pub component: u8,
    pub phase: u8,
    pub next: u8,
    pub port: u8,
    pub low: u16,
    pub high: u16,
    pub least: u16,
    pub low_elapsed: u32,
    pub high_elapsed: u32,
}

#[derive(Clone, Copy, Default)]
pub struct Coupling {
    pub source: u8,
    pub source_port: u8,
    pub target: u8,
    pub target_port: u8,
}

// ---- how many records a slice holds

pub fn component_count(components: &[u8]) -> usize
    ensures { result ≡ length (components_in components.now) }
{
    components.len() / COMPONENT_SIZE
}

pub fn phase_count(phases: &[u8]) -> usize
    ensures { result ≡ length (phases_in phases.now) }
{
    phases.len() / PHASE_SIZE
}

pub fn rule_count(rules: &[u8]) -> usize
    ensures { result ≡ length (rules_in rules.now) }
{
    rules.len() / RULE_SIZE
}

pub fn coupling_count(couplings: &[u8]) -> usize
    ensures { result ≡ length (couplings_in couplings.now) }
{
    couplings.len() / COUPLING_SIZE
}

// ---- a record by its number

// The bytes of record i, as a slice whose length is the record's size: a field is then read without a test of where the slice ends.
pub fn record_bytes<'a>(records: &'a [u8], size: usize, i: usize) -> &'a [u8]
    requires { i < length records.now / size }
    ensures { result.now ≡ row size i records.now }
{
    let start = size * i;
    &records[start..start + size]
}

pub fn component_in(components: &[u8], i: usize) -> Component
    requires { i < length (components_in components.now) }
    ensures { component_of result ≡ component_at (components_in components.now) i }
{
    let bytes = record_bytes(components, COMPONENT_SIZE, i);
    Component {
        kind: little_endian::byte_at(bytes, 0),
        parent: little_endian::byte_at(bytes, 1),
        phases: little_endian::byte_at(bytes, 2),
        initial: little_endian::byte_at(bytes, 3),
        order: little_endian::byte_at(bytes, 4),
    }
}

pub fn component_at(components: &[u8], i: usize) -> Component
    ensures { component_of result ≡ component_at (components_in components.now) i }
{
    if i < component_count(components) {
        component_in(components, i)
    } else {
        Component::default()
    }
}

// The slot that begins at a byte of a phase record.
fn message_at(phase: &[u8], at: usize) -> Message
    requires { at < phase_size }
    ensures { message_of result ≡ message_at at phase.now }
{
    Message {
        port: little_endian::byte_at(phase, at),
        value: little_endian::u16_at(phase, at + 1),
    }
}

pub fn phase_in(phases: &[u8], i: usize) -> Phase
    requires { i < length (phases_in phases.now) }
    ensures { phase_of result ≡ get_or (phases_in phases.now) i no_phase }
{
    let bytes = record_bytes(phases, PHASE_SIZE, i);
    Phase {
        advance: little_endian::u32_at(bytes, 0),
        next: little_endian::byte_at(bytes, 4),
        output_count: little_endian::byte_at(bytes, 5),
        slot0: message_at(bytes, 6),
        slot1: message_at(bytes, 9),
        slot2: message_at(bytes, 12),
        slot3: message_at(bytes, 15),
    }
}

pub fn phase_at(phases: &[u8], i: usize) -> Phase
    ensures { phase_of result ≡ get_or (phases_in phases.now) i no_phase }
{
    if i < phase_count(phases) {
        phase_in(phases, i)
    } else {
        Phase::default()
    }
}

pub fn rule_in(rules: &[u8], i: usize) -> Rule
    requires { i < length (rules_in rules.now) }
    ensures { rule_of result ≡ get_or (rules_in rules.now) i no_rule }
{
    let bytes = record_bytes(rules, RULE_SIZE, i);
    Rule {
        component: little_endian::byte_at(bytes, 0),
        phase: little_endian::byte_at(bytes, 1),
        next: little_endian::byte_at(bytes, 2),
        port: little_endian::byte_at(bytes, 3),
        low: little_endian::u16_at(bytes, 4),
        high: little_endian::u16_at(bytes, 6),
        least: little_endian::u16_at(bytes, 8),
        low_elapsed: little_endian::u32_at(bytes, 10),
        high_elapsed: little_endian::u32_at(bytes, 14),
    }
}

pub fn rule_at(rules: &[u8], i: usize) -> Rule
    ensures { rule_of result ≡ get_or (rules_in rules.now) i no_rule }
{
    if i < rule_count(rules) {
        rule_in(rules, i)
    } else {
        Rule::default()
    }
}

pub fn coupling_in(couplings: &[u8], i: usize) -> Coupling
    requires { i < length (couplings_in couplings.now) }
    ensures { coupling_of result ≡ get_or (couplings_in couplings.now) i no_coupling }
{
    let bytes = record_bytes(couplings, COUPLING_SIZE, i);
    Coupling {
        source: little_endian::byte_at(bytes, 0),
        source_port: little_endian::byte_at(bytes, 1),
        target: little_endian::byte_at(bytes, 2),
        target_port: little_endian::byte_at(bytes, 3),
    }
}

pub fn coupling_at(couplings: &[u8], i: usize) -> Coupling
    ensures { coupling_of result ≡ get_or (couplings_in couplings.now) i no_coupling }
{
    if i < coupling_count(couplings) {
        coupling_in(couplings, i)
    } else {
        Coupling::default()
    }
}

// ---- kinship

pub fn is_atomic(components: &[u8], c: usize) -> bool
    ensures { result ≡ is_atomic (components_in components.now) c }
{
    let component = component_at(components, c);
    component.kind == 1
}

// d is a child of c; the root is nobody's.
pub fn is_child(components: &[u8], c: usize, d: usize) -> bool
    ensures { result ≡ is_child (components_in components.now) c d }
{
    let component = component_at(components, d);
    !(d == 0) & (component.parent as usize == c)
}

// How many of the components are atomic.
pub fn atomic_count(components: &[u8]) -> usize
    ensures { result ≡ length (atomics (components_in components.now)) }
{
    let n = component_count(components);
    let mut k: usize = 0;
    for c in 0..n {
        k += usize::from(is_atomic(components, c));
    }
    k
}

// ---- phases

// How many phase records stand before those of component c.
pub fn phases_before(components: &[u8], c: u8) -> usize
    ensures { result ≡ phases_before (components_in components.now) c }
{
    let mut total: usize = 0;
    for i in 0..c {
        let component = component_at(components, i as usize);
        total += component.phases as usize;
    }
    total
}

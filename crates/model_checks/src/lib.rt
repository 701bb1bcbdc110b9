// Reading one record yields either the record or the number of its refusal: the lines that each kind of record must keep.
#![tactic(auto)]

ghost use Rattle.std.specs.Prelude.{◌≡◌, ◌&&◌, ◌+◌, ◌<◌, ltb, leb, length};
ghost use Rattle.definition.specs.Limits.{max_outputs};
ghost use Rattle.definition.specs.Pinned.Decoder.{kind_fields, advance_fits, rule_fields, coupling_fields};
ghost use Rattle.model_records.specs.Values.{component_of, phase_of, rule_of, coupling_of, components_in, phases_in, rules_in, couplings_in};
ghost use Rattle.model_checks.specs.Reads.{coupling_of_key, component_asked, phase_asked, rule_asked, coupling_asked};
ghost use Rattle.refusals.specs.Refusals.{result_as};
ghost use Rattle.model_checks.specs.Known.{Room, fits_behind, Next, Keepable, Keeps, CountsKnown, Placed, NextRule, NextRow};

mod kinship;
mod phase_slots;

use kinship::are_related;
use limits::{
    MAX_ADVANCE, MAX_ANCESTORS, MAX_COMPONENTS, MAX_OUTPUTS, MAX_OWN_PHASES, NEVER_FIELD,
    PORT_COUNT,
};
use model_records::{Component, Coupling, Phase, Rule};
use phase_slots::slots_fit;
use refusals::Refusal;

// ---- components

fn kind_fields(component: Component) -> bool
    ensures { result ≡ kind_fields (component_of component) }
{
    if component.kind == 0 {
        return (component.phases == 0) & (component.initial == 0) & (component.order == 0);
    }
    (component.kind == 1)
        & ((1 <= component.phases)
            & (component.phases <= MAX_OWN_PHASES)
            & (component.initial < component.phases)
            & (component.order <= 1))
}

// The component of number i, by what is known of those before it. These are accepted: so a parent without phases is coupled, since an
// atomic that is accepted has a phase.
fn component_fits(
    component: Component,
    i: usize,
    phase_counts: &[u8; MAX_COMPONENTS],
    depths: &[u8; MAX_COMPONENTS],
) -> bool
    requires { Room i phase_counts.now depths.now }
    ensures { result ≡ fits_behind (component_of component) i phase_counts.now depths.now }
{
    if i == 0 {
        return kind_fields(component) & ((component.kind == 0) & (component.parent == 0));
    }
    let parent = component.parent as usize;
    if i <= parent {
        return false;
    }
    if !((phase_counts[parent] == 0) & ((depths[parent] as usize) < MAX_ANCESTORS)) {
        return false;
    }
    kind_fields(component)
}

pub fn read_component(
    components: &[u8],
    i: usize,
    phase_counts: &[u8; MAX_COMPONENTS],
    depths: &[u8; MAX_COMPONENTS],
) -> Result<Component, Refusal>
    requires { Next (components_in components.now) i phase_counts.now depths.now }
    ensures { result_as component_of result ≡ component_asked (components_in components.now) i }
{
    let component = model_records::component_in(components, i);
    if component_fits(component, i, phase_counts, depths) {
        Ok(component)
    } else {
        Err(Refusal::BadComponent)
    }
}

// What is known of component i, once it is accepted, is kept beside what is known of those before it.
pub fn keep_component(
    component: Component,
    i: usize,
    parents: &mut [u8; MAX_COMPONENTS],
    phase_counts: &mut [u8; MAX_COMPONENTS],
    depths: &mut [u8; MAX_COMPONENTS],
)
    requires { Keepable (component_of component) i parents.old phase_counts.old depths.old }
    ensures { Keeps (component_of component) i parents.old phase_counts.old depths.old
        parents.new phase_counts.new depths.new }
{
    parents[i] = component.parent;
    phase_counts[i] = component.phases;
    if i == 0 {
        depths[i] = 0;
        return;
    }
    depths[i] = depths[component.parent as usize] + 1;
}

// ---- phases

// The fields before the slots.
fn phase_numbers(bound: u8, phase: Phase) -> bool
    ensures { result ≡ (advance_fits phase.advance && ltb phase.next bound && leb phase.output_count max_outputs) }
{
    ((phase.advance <= MAX_ADVANCE) | (phase.advance == NEVER_FIELD))
        & (phase.next < bound)
        & (phase.output_count <= MAX_OUTPUTS)
}

// Phase record i, whose atomic has `bound` phases.
pub fn read_phase(phases: &[u8], i: usize, bound: u8) -> Result<Phase, Refusal>
    requires { i < length (phases_in phases.now) }
    ensures { result_as phase_of result ≡ phase_asked bound (phases_in phases.now) i }
{
    let phase = model_records::phase_in(phases, i);
    if phase_numbers(bound, phase) && slots_fit(phase) {
        Ok(phase)
    } else {
        Err(Refusal::BadPhase)
    }
}

// ---- rules

// Whether the component is atomic needs no test of its own: all components are accepted, so that a coupled one has no phase, and the
// rule's phase lies below the component's phase count.
fn rule_fields(components: &[u8], phase_counts: &[u8; MAX_COMPONENTS], rule: Rule) -> bool
    requires { CountsKnown (components_in components.now) phase_counts.now }
    ensures { result ≡ rule_fields (components_in components.now) (rule_of rule) }
{
    let component = rule.component as usize;
    if model_records::component_count(components) <= component {
        return false;
    }
    let phases = phase_counts[component];
    (rule.phase < phases)
        & (rule.next < phases)
        & (rule.port < PORT_COUNT)
        & (rule.low <= rule.high)
        & (rule.low_elapsed <= rule.high_elapsed)
}

pub fn read_rule(
    components: &[u8],
    phase_counts: &[u8; MAX_COMPONENTS],
    rules: &[u8],
    i: usize,
) -> Result<Rule, Refusal>
    requires { NextRule (components_in components.now) phase_counts.now (rules_in rules.now) i }
    ensures { result_as rule_of result ≡ rule_asked (components_in components.now) (rules_in rules.now) i }
{
    let rule = model_records::rule_in(rules, i);
    if rule_fields(components, phase_counts, rule) {
        Ok(rule)
    } else {
        Err(Refusal::BadRule)
    }
}

// ---- couplings

fn coupling_fields(components: &[u8], parents: &[u8; MAX_COMPONENTS], coupling: Coupling) -> bool
    requires { Placed (components_in components.now) parents.now }
    ensures { result ≡ coupling_fields (components_in components.now) (coupling_of coupling) }
{
    let component_count = model_records::component_count(components);
    let source = coupling.source as usize;
    let target = coupling.target as usize;
    if !((source < component_count)
        & (target < component_count)
        & (coupling.source_port < PORT_COUNT)
        & (coupling.target_port < PORT_COUNT))
    {
        return false;
    }
    are_related(components, parents, source, target)
}

// A row of four bytes as one number. Keys stand in the order of their rows.
pub fn coupling_key(coupling: Coupling) -> usize
    ensures { coupling_of_key result ≡ coupling_of coupling }
{
    coupling.source as usize * 16777216
        + coupling.source_port as usize * 65536
        + coupling.target as usize * 256
        + coupling.target_port as usize
}

// Row i, behind a row whose key is `before`.
pub fn read_coupling(
    components: &[u8],
    parents: &[u8; MAX_COMPONENTS],
    couplings: &[u8],
    i: usize,
    before: usize,
) -> Result<Coupling, Refusal>
    requires { NextRow (components_in components.now) parents.now (couplings_in couplings.now) i before }
    ensures { result_as coupling_of result ≡ coupling_asked (components_in components.now) (couplings_in couplings.now) i }
{
    let coupling = model_records::coupling_in(couplings, i);
    if coupling_fields(components, parents, coupling) && before <= coupling_key(coupling) {
        Ok(coupling)
    } else {
        Err(Refusal::BadCoupling)
    }
}

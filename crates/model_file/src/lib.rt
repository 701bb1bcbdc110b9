// Reading a model file down to its end, and the parts of an accepted file that later calls read: four slices, one for each of the first four
// sections, that hold exactly the records.
#![tactic(auto)]

ghost use Rattle.std.specs.Prelude.{◌≡◌};
ghost use Rattle.definition.specs.Pinned.Decoder.{decode};
ghost use Rattle.model_file.specs.Checked.{components_part, phases_part, rules_part, couplings_part, after_components, after_phases, after_rules, checked_as};

use limits::{COMPONENT_SIZE, COUPLING_SIZE, MAX_COMPONENTS, PHASE_SIZE, RULE_SIZE};
use model_sections::{section_part, section_rest};
use refusals::Refusal;

// How many records each of the four sections has, and whether a fifth excludes the high ends of elapsed ranges.
#[derive(Clone, Copy)]
pub struct Counts {
    pub components: u16,
    pub phases: u16,
    pub rules: u16,
    pub couplings: u16,
    pub half_open: bool,
}

// The sections in a row, and nothing after them: numbers 1 to 8, then 20, 7 and 2.
pub fn decode_model(file: &[u8]) -> Result<Counts, Refusal>
    ensures { checked_as file.now result ≡ decode file.now }
{
    let mut parents = [0u8; MAX_COMPONENTS];
    let mut phase_counts = [0u8; MAX_COMPONENTS];
    let components = model_sections::read_components(file, &mut parents, &mut phase_counts)?;
    let component_records = section_part(file, components, COMPONENT_SIZE);
    let after_components = section_rest(file, components, COMPONENT_SIZE);
    let phases = model_sections::read_phases(component_records, &phase_counts, after_components)?;
    let after_phases = section_rest(after_components, phases, PHASE_SIZE);
    let rules = model_sections::read_rules(component_records, &phase_counts, after_phases)?;
    let after_rules = section_rest(after_phases, rules, RULE_SIZE);
    let couplings = model_sections::read_couplings(component_records, &parents, after_rules)?;
    let after_couplings = section_rest(after_rules, couplings, COUPLING_SIZE);
    let rule_records = section_part(after_phases, rules, RULE_SIZE);
    let half_open = model_further::read_further(rule_records, after_couplings)?;
    Ok(Counts {
        components,
        phases,
        rules,
        couplings,
        half_open,
    })
}

// ---- the parts of a file with so many records

fn after_components<'a>(file: &'a [u8], counts: Counts) -> &'a [u8]
    ensures { result.now ≡ after_components file.now counts }
{
    section_rest(file, counts.components, COMPONENT_SIZE)
}

fn after_phases<'a>(file: &'a [u8], counts: Counts) -> &'a [u8]
    ensures { result.now ≡ after_phases file.now counts }
{
    section_rest(after_components(file, counts), counts.phases, PHASE_SIZE)
}

fn after_rules<'a>(file: &'a [u8], counts: Counts) -> &'a [u8]
    ensures { result.now ≡ after_rules file.now counts }
{
    section_rest(after_phases(file, counts), counts.rules, RULE_SIZE)
}

pub fn components_of<'a>(file: &'a [u8], counts: Counts) -> &'a [u8]
    ensures { result.now ≡ components_part file.now counts }
{
    section_part(file, counts.components, COMPONENT_SIZE)
}

pub fn phases_of<'a>(file: &'a [u8], counts: Counts) -> &'a [u8]
    ensures { result.now ≡ phases_part file.now counts }
{
    section_part(after_components(file, counts), counts.phases, PHASE_SIZE)
}

pub fn rules_of<'a>(file: &'a [u8], counts: Counts) -> &'a [u8]
    ensures { result.now ≡ rules_part file.now counts }
{
    section_part(after_phases(file, counts), counts.rules, RULE_SIZE)
}

pub fn couplings_of<'a>(file: &'a [u8], counts: Counts) -> &'a [u8]
    ensures { result.now ≡ couplings_part file.now counts }
{
    section_part(after_rules(file, counts), counts.couplings, COUPLING_SIZE)
}

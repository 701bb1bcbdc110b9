// The four sections of a model file, each read from where the one before it ended: the head's number first, then the records in order,
// each taken apart at once. A reader gets the rest of the file from its section on.
#![tactic(auto)]

ghost use Rattle.std.specs.Prelude.{◌≡◌, ◌*◌, ◌≤◌};
ghost use Rattle.definition.specs.Limits.{phase_size, rule_size, coupling_size};
ghost use Rattle.definition.specs.File.{phase_total};
ghost use Rattle.definition.specs.Pinned.Decoder.{to_phase, to_rule, to_coupling, section_count};
ghost use Rattle.definition.specs.Pinned.Decoder.{component_count_refusal, phase_count_refusal, limit_refusal};
ghost use Rattle.definition.specs.Pinned.Decoder.{phase_section, rule_section, coupling_section};
ghost use Rattle.law_bytes.specs.Parts.{part_of, rest_after};
ghost use Rattle.model_records.specs.Values.{components_in};
ghost use Rattle.model_checks.specs.Known.{CountsKnown, Placed};
ghost use Rattle.model_sections.specs.Answers.{section_read, Room, ComponentsRead};
ghost use Rattle.definition.specs.Bytes.{number_of};
ghost use Rattle.refusals.specs.Refusals.{told_in};

use limits::{
    COMPONENT_SIZE, COUNT_SIZE, COUPLING_SIZE, MAX_COMPONENTS, MAX_COUPLINGS, MAX_PHASES,
    MAX_RULES, PHASE_SIZE, RULE_SIZE,
};
use little_endian::u16_at;
use refusals::Refusal;

// ---- a section's parts

// The bytes of so many records.
fn length_of(count: u16, size: usize) -> usize
    requires { size ≤ 255 }
    ensures { (result ≡ count * size) × (result ≤ 16777215) }
{
    count as usize * size
}

// The records of the section that comes next in the file, without their count.
pub fn section_part<'a>(rest_of_file: &'a [u8], count: u16, size: usize) -> &'a [u8]
    requires { size ≤ 255 }
    ensures { result.now ≡ part_of size count rest_of_file.now }
{
    little_endian::front(
        little_endian::rest(rest_of_file, COUNT_SIZE),
        length_of(count, size),
    )
}

// What follows them.
pub fn section_rest<'a>(rest_of_file: &'a [u8], count: u16, size: usize) -> &'a [u8]
    requires { size ≤ 255 }
    ensures { result.now ≡ rest_after size count rest_of_file.now }
{
    little_endian::rest(rest_of_file, COUNT_SIZE + length_of(count, size))
}

// Why a section is refused before its first record is read. The caller has judged the count: so the file is cut where the count is cut off, then
// the count is refused, then the file is cut where the records are cut off.
fn check_head(rest_of_file: &[u8], size: usize, judged: Result<(), Refusal>) -> Result<(), Refusal>
    requires { size ≤ 255 }
    ensures { told_in result ≡ number_of (section_count size (λ _. told_in judged) rest_of_file.now) }
{
    if rest_of_file.len() < COUNT_SIZE {
        return Err(Refusal::ModelCut);
    }
    judged?;
    let end = COUNT_SIZE + length_of(u16_at(rest_of_file, 0), size);
    if rest_of_file.len() < end {
        return Err(Refusal::ModelCut);
    }
    Ok(())
}

// ---- counts judged

fn judge_components(count: usize) -> Result<(), Refusal>
    ensures { told_in result ≡ component_count_refusal count }
{
    if (MAX_COMPONENTS < count) | (count == 0) {
        Err(Refusal::CountLimit)
    } else {
        Ok(())
    }
}

fn judge_phases(total: usize, count: usize) -> Result<(), Refusal>
    ensures { told_in result ≡ phase_count_refusal total count }
{
    if MAX_PHASES < count {
        return Err(Refusal::CountLimit);
    }
    if count != total {
        return Err(Refusal::PhaseSum);
    }
    Ok(())
}

fn judge_limit(limit: usize, count: usize) -> Result<(), Refusal>
    ensures { told_in result ≡ limit_refusal limit count }
{
    if limit < count {
        Err(Refusal::CountLimit)
    } else {
        Ok(())
    }
}

// ---- the sections

// What is known of the components is left in the two arrays, for the sections after this one.
pub fn read_components(
    file: &[u8],
    parents: &mut [u8; MAX_COMPONENTS],
    phase_counts: &mut [u8; MAX_COMPONENTS],
) -> Result<u16, Refusal>
    requires { Room parents.old phase_counts.old }
    ensures { ComponentsRead file.now result parents.new phase_counts.new }
{
    let announced = u16_at(file, 0);
    let count = announced as usize;
    check_head(file, COMPONENT_SIZE, judge_components(count))?;
    let records = section_part(file, announced, COMPONENT_SIZE);
    let mut depths = [0u8; MAX_COMPONENTS];
    for i in 0..count {
        let component = model_checks::read_component(records, i, phase_counts, &depths)?;
        model_checks::keep_component(component, i, parents, phase_counts, &mut depths);
    }
    Ok(announced)
}

// The sum of the phase counts.
fn phase_total(components: &[u8], phase_counts: &[u8; MAX_COMPONENTS]) -> usize
    requires { CountsKnown (components_in components.now) phase_counts.now }
    ensures { result ≡ phase_total (components_in components.now) }
{
    let component_count = model_records::component_count(components);
    let mut total: usize = 0;
    for c in 0..component_count {
        total += phase_counts[c] as usize;
    }
    total
}

// The phases of the components, atomic by atomic: record i is phase p of component c.
pub fn read_phases(
    components: &[u8],
    phase_counts: &[u8; MAX_COMPONENTS],
    rest_of_file: &[u8],
) -> Result<u16, Refusal>
    requires { CountsKnown (components_in components.now) phase_counts.now }
    ensures { section_read phase_size to_phase rest_of_file.now result
        ≡ phase_section (components_in components.now) rest_of_file.now }
{
    let announced = u16_at(rest_of_file, 0);
    let count = announced as usize;
    let component_count = model_records::component_count(components);
    let total = phase_total(components, phase_counts);
    check_head(rest_of_file, PHASE_SIZE, judge_phases(total, count))?;
    let records = section_part(rest_of_file, announced, PHASE_SIZE);
    let mut i: usize = 0;
    for c in 0..component_count {
        let bound = phase_counts[c];
        for _ in 0..bound {
            model_checks::read_phase(records, i, bound)?;
            i += 1;
        }
    }
    Ok(announced)
}

pub fn read_rules(
    components: &[u8],
    phase_counts: &[u8; MAX_COMPONENTS],
    rest_of_file: &[u8],
) -> Result<u16, Refusal>
    requires { CountsKnown (components_in components.now) phase_counts.now }
    ensures { section_read rule_size to_rule rest_of_file.now result
        ≡ rule_section (components_in components.now) rest_of_file.now }
{
    let announced = u16_at(rest_of_file, 0);
    let count = announced as usize;
    check_head(rest_of_file, RULE_SIZE, judge_limit(MAX_RULES, count))?;
    let records = section_part(rest_of_file, announced, RULE_SIZE);
    for i in 0..count {
        model_checks::read_rule(components, phase_counts, records, i)?;
    }
    Ok(announced)
}

pub fn read_couplings(
    components: &[u8],
    parents: &[u8; MAX_COMPONENTS],
    rest_of_file: &[u8],
) -> Result<u16, Refusal>
    requires { Placed (components_in components.now) parents.now }
    ensures { section_read coupling_size to_coupling rest_of_file.now result
        ≡ coupling_section (components_in components.now) rest_of_file.now }
{
    let announced = u16_at(rest_of_file, 0);
    let count = announced as usize;
    check_head(
        rest_of_file,
        COUPLING_SIZE,
        judge_limit(MAX_COUPLINGS, count),
    )?;
    let records = section_part(rest_of_file, announced, COUPLING_SIZE);
    let mut before: usize = 0;
    for i in 0..count {
        let coupling = model_checks::read_coupling(components, parents, records, i, before)?;
        before = model_checks::coupling_key(coupling);
    }
    Ok(announced)
}

// What follows the couplings of a model file: nothing, or the fifth section, by which the high ends of elapsed ranges are excluded; then the
// test of equal ends, and the end of the file. A section of a later make comes behind the fifth, before the end.
#![tactic(auto)]

ghost use Rattle.std.specs.Prelude.{◌≡◌};
ghost use Rattle.definition.specs.Lists.{all};
ghost use Rattle.definition.specs.Model.{half_open};
ghost use Rattle.definition.specs.Pinned.Decoder.{is_fifth, elapsed_fits, further_sections};
ghost use Rattle.model_records.specs.Values.{rules_in};
ghost use Rattle.law_base.specs.Ranges.{ranges_of};
ghost use Rattle.refusals.specs.Refusals.{result_as};

use limits::{COUNT_SIZE, FIFTH_SIZE, HALF_OPEN_BYTE};
use little_endian::{byte_at, u16_at};
use model_records::{rule_count, rule_in};
use refusals::Refusal;

// "count 1, then the byte 2"
fn is_fifth(rest_of_file: &[u8]) -> bool
    ensures { result ≡ is_fifth rest_of_file.now }
{
    let count = u16_at(rest_of_file, 0);
    let byte = byte_at(rest_of_file, COUNT_SIZE);
    (FIFTH_SIZE <= rest_of_file.len()) & (count == 1) & (byte == HALF_OPEN_BYTE)
}

// Whether every rule's low elapsed time lies below its high one. The records have passed their own test, so that only equal ends are left to
// find; it is made once the fifth section has been read, over all rules again.
fn ends_differ(rules: &[u8]) -> bool
    ensures { result ≡ all (elapsed_fits half_open) (rules_in rules.now) }
{
    for i in 0..rule_count(rules) {
        let rule = rule_in(rules, i);
        if rule.high_elapsed <= rule.low_elapsed {
            return false;
        }
    }
    true
}

// Whether the high ends of elapsed ranges are excluded. 20 where something follows that is no fifth section, then 7, then 2.
pub fn read_further(rules: &[u8], rest_of_file: &[u8]) -> Result<bool, Refusal>
    ensures { result_as ranges_of result ≡ further_sections (rules_in rules.now) rest_of_file.now }
{
    if rest_of_file.is_empty() {
        return Ok(false);
    }
    if !is_fifth(rest_of_file) {
        return Err(Refusal::BadFifthSection);
    }
    if !ends_differ(rules) {
        return Err(Refusal::BadRule);
    }
    if FIFTH_SIZE < rest_of_file.len() {
        return Err(Refusal::ModelLeftOver);
    }
    Ok(true)
}

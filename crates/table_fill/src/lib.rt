// The tables of a call, filled once from the records of an accepted model: every lookup of a step is then one word.
#![tactic(auto)]

ghost use Rattle.std.specs.Prelude.{◌≡◌, ◌≤◌, length};
ghost use Rattle.definition.specs.Limits.{max_components, max_rules, max_couplings};
ghost use Rattle.law_base.specs.Ranges.{ranges_of};
ghost use Rattle.model_records.specs.Values.{components_in, rules_in, couplings_in};
ghost use Rattle.table_couplings.specs.Links.{Begun};
ghost use Rattle.table_fill.specs.Filled.{ranges_word, filled};

use table_words::{ATOMICS_AT, COUNT_AT, LINKS, RANGES_AT, TABLE_SIZE};

fn ranges_word(half_open: bool) -> u16
    ensures { result ≡ ranges_word (ranges_of half_open) }
{
    if half_open { 1 } else { 0 }
}

// The words of the links stand, as the check of the model leaves them; everything else is zero.
pub fn fill_tables(
    components: &[u8],
    rules: &[u8],
    couplings: &[u8],
    half_open: bool,
    targets: &[u16; LINKS],
    tables: &mut [u16; TABLE_SIZE],
)
    requires { (length (components_in components.now) ≤ max_components) × (length (rules_in rules.now) ≤ max_rules) × (length (couplings_in couplings.now) ≤ max_couplings)
        × Begun (components_in components.now) (couplings_in couplings.now) targets.now tables.old }
    ensures { tables.new ≡ filled (components_in components.now) (rules_in rules.now) (couplings_in couplings.now) (ranges_of half_open) }
{
    table_components::fill_components(components, tables);
    table_components::fill_rules(rules, tables);
    table_components::fill_children(components, tables);
    table_couplings::fill_linked(components, couplings, targets, tables);
    tables[COUNT_AT] = table_components::count_word(components);
    tables[ATOMICS_AT] = table_components::atomics_word(components);
    tables[RANGES_AT] = ranges_word(half_open);
}

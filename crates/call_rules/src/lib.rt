// The table of deciding rules, after the instants of a call: for each atomic in file order the position of the rule of its last external part
// in the last instant done, two bytes.
#![tactic(auto)]

ghost use Rattle.std.specs.Prelude.{◌≡◌, ◌*◌, ◌≤◌, length};
ghost use Rattle.definition.specs.Bytes.{stored};
ghost use Rattle.definition.specs.Limits.{max_components, position_size};
ghost use Rattle.definition.specs.Engine.{table_bytes};
ghost use Rattle.spec_step.specs.Tables.{atomics_in};
ghost use Rattle.instant_steps.specs.Sim.{rules_shown};
ghost use Rattle.instant_loop.specs.Ends.{table_left};

use limits::POSITION_SIZE;
use run_state::STATE_SIZE;
use table_words::{TABLE_SIZE, atomics_in};

// The entries of n atomics at the front of a table that is long enough.
fn put_entries(state: &[u64; STATE_SIZE], n: usize, table: &mut [u8])
    requires { (n ≤ max_components) × (position_size * n ≤ length table.old) }
    ensures { table.new ≡ stored (table_bytes (rules_shown n state.now)) table.old }
{
    run_state::whole(state);
    for i in 0..n {
        let rule = run_state::rule_at(state, i) as u64;
        little_endian::put_number(table, POSITION_SIZE * i, POSITION_SIZE, rule);
    }
}

// "If no instant was done, or the table has under two bytes an atomic, the table stays untouched; bytes past its entries always stay."
pub fn put_rules(
    tables: &[u16; TABLE_SIZE],
    state: &[u64; STATE_SIZE],
    instants: u64,
    table: &mut [u8],
)
    requires { atomics_in tables.now ≤ max_components }
    ensures { table.new ≡ table_left tables.now state.now instants table.old }
{
    let n = atomics_in(tables) as usize;
    if (instants == 0) | (table.len() < POSITION_SIZE * n) {
        return;
    }
    put_entries(state, n, table);
}

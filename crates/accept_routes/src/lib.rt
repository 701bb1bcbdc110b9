// Number 9, more than 1,024 routes, and with it the whole check of a model file.
#![tactic(auto)]

ghost use Rattle.std.specs.Prelude.{◌≡◌, ◌+◌, ◌*◌, ◌<◌, ◌≤◌, min, cond, length};
ghost use Rattle.definition.specs.Limits.{max_components, max_couplings, port_count};
ghost use Rattle.definition.specs.Model.{is_atomic};
ghost use Rattle.definition.specs.Pinned.Decoder.{accepted, check_model};
ghost use Rattle.model_records.specs.Values.{components_in};
ghost use Rattle.model_file.specs.Checked.{checked_as};
ghost use Rattle.law_routes.specs.Nodes.{port_nodes};
ghost use Rattle.law_routes.specs.Ways.{ways_cap, four, table_routes};
ghost use Rattle.table_couplings.specs.Links.{zeros};
ghost use Rattle.accept_routes.specs.Routed.{accepted_as, Routed, LinkedBy};

use accept_ways::capped;
use limits::{MAX_NODES, MAX_ROUTES, OUTPUTS_AT, PORT_NODES};
use model_file::Counts;
use refusals::Refusal;
use table_words::{LINKS, TABLE_SIZE};

// The sum of four entries.
fn four_ways(ways: &[u16; MAX_NODES], at: usize) -> u16
    requires { at + port_count ≤ port_nodes * max_components }
    ensures { result ≡ min ways_cap (four ways.now at) }
{
    capped(
        ways[at],
        capped(ways[at + 1], capped(ways[at + 2], ways[at + 3])),
    )
}

// The ways from an atomic's outputs.
fn own_ways(components: &[u8], ways: &[u16; MAX_NODES], c: usize) -> u16
    requires { c < max_components }
    ensures { result ≡ min ways_cap (cond (is_atomic (components_in components.now) c) (four ways.now (port_nodes * c + port_count)) 0) }
{
    if model_records::is_atomic(components, c) {
        four_ways(ways, PORT_NODES * c + OUTPUTS_AT)
    } else {
        0
    }
}

// The routes by the table of ways, up to the cap.
fn route_total(components: &[u8], ways: &[u16; MAX_NODES]) -> u16
    requires { length (components_in components.now) ≤ max_components }
    ensures { result ≡ min ways_cap (table_routes (components_in components.now) ways.now) }
{
    let mut total = four_ways(ways, 0);
    for c in 0..model_records::component_count(components) {
        total = capped(total, own_ways(components, ways, c));
    }
    total
}

// What the whole check tells of an accepted model file: how many records each section has, and the number of routes.
#[derive(Clone, Copy)]
pub struct Accepted {
    pub counts: Counts,
    pub routes: u16,
}

// The tables are lent as zeros; where the file is accepted, the words of its links stand in them.
pub fn check_routes(
    file: &[u8],
    tables: &mut [u16; TABLE_SIZE],
    targets: &mut [u16; LINKS],
) -> Result<Accepted, Refusal>
    requires { (tables.old ≡ zeros) × (length targets.old ≡ max_couplings + 1) }
    ensures { (accepted_as file.now result ≡ accepted file.now) × Routed file.now result × LinkedBy file.now result targets.new tables.new }
{
    let counts = model_file::decode_model(file)?;
    let components = model_file::components_of(file, counts);
    let couplings = model_file::couplings_of(file, counts);
    table_couplings::put_ends(components, couplings, targets, tables);
    let mut ways = [0u16; MAX_NODES];
    accept_ways::count_ways(components, couplings, tables, targets, &mut ways);
    let routes = route_total(components, &ways);
    if MAX_ROUTES < routes {
        return Err(Refusal::TooManyRoutes);
    }
    Ok(Accepted { counts, routes })
}

// The same for a call that fills no tables.
pub fn check(file: &[u8]) -> Result<Counts, Refusal>
    ensures { checked_as file.now result ≡ accepted file.now }
{
    let mut tables = [0u16; TABLE_SIZE];
    let mut targets = [0u16; LINKS];
    let accepted = check_routes(file, &mut tables, &mut targets)?;
    Ok(accepted.counts)
}

// The number by which a model file is refused, or 0, as the call answers it to C.
pub fn check_model(file: &[u8]) -> u64
    ensures { result ≡ check_model file.now }
{
    match check(file) {
        Ok(_) => 0,
        Err(refusal) => u64::from(refusal),
    }
}

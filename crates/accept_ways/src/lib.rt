// How many ways lead on from each port to an end, counted up to one more than a model may have, on the nodes of the links: the ends alone,
// then one pass from the last link to the first for the ways down, and one from the first to the last for the others.
#![tactic(auto)]

ghost use Rattle.std.specs.Prelude.{◌≡◌, ◌+◌, ◌*◌, ◌<◌, ◌≤◌, min, length, get_or};
ghost use Rattle.definition.specs.Limits.{max_components, max_couplings};
ghost use Rattle.model_records.specs.Values.{components_in, couplings_in};
ghost use Rattle.law_routes.specs.Ways.{ways_cap, WaysCounted, Placed};
ghost use Rattle.spec_step.specs.Tables.{port_nodes, is_output};
ghost use Rattle.table_couplings.specs.Links.{source_in, OnNodes, Joined};
ghost use Rattle.accept_ways.specs.Words.{link_taken, link_on, ways_down, ways_up};

use limits::{MAX_NODES, OUTPUTS_AT, PORT_NODES, WAYS_CAP};
use table_words::{LINKS, SOURCE_AT, TABLE_SIZE};

// A sum up to the cap.
pub fn capped(a: u16, b: u16) -> u16
    ensures { result ≡ min ways_cap (a + b) }
{
    let sum = a as u32 + b as u32;
    if sum < WAYS_CAP as u32 {
        sum as u16
    } else {
        WAYS_CAP
    }
}

// ---- one link

// The ways on from where it ends are ways on from where it begins.
fn take_link(x: usize, y: usize, ways: &mut [u16; MAX_NODES])
    requires { (x < port_nodes * max_components) × (y < port_nodes * max_components) }
    ensures { ways.new ≡ link_taken x y ways.old }
{
    ways[x] = capped(ways[x], ways[y]);
}

// Output nodes stand behind the four input nodes of their component. A link that begins at an input leads down.
fn is_output(x: usize) -> bool
    ensures { result ≡ is_output x }
{
    !(x % PORT_NODES < OUTPUTS_AT)
}

// Link j, where it begins on that side: at an output where it leads up or across, at an input where it leads down.
fn take_side(
    tables: &[u16; TABLE_SIZE],
    targets: &[u16; LINKS],
    j: usize,
    output: bool,
    ways: &mut [u16; MAX_NODES],
)
    requires { (j ≤ max_couplings) × (source_in tables.now j < port_nodes * max_components) × (get_or targets.now j 0 < port_nodes * max_components) }
    ensures { ways.new ≡ link_on output (source_in tables.now j) (get_or targets.now j 0) ways.old }
{
    let x = tables[SOURCE_AT + j] as usize;
    if is_output(x) == output {
        take_link(x, targets[j] as usize, ways);
    }
}

// ---- all links

// The links that lead down, from the last to the first: a child's links stand behind its parent's. Two directions, two functions: one for both
// would take the range and the side, for a loop of one line.
fn ways_down(
    tables: &[u16; TABLE_SIZE],
    targets: &[u16; LINKS],
    n: usize,
    ways: &mut [u16; MAX_NODES],
)
    requires { (n ≤ max_couplings) × OnNodes (source_in tables.now) (λ j. get_or targets.now j 0) n }
    ensures { ways.new ≡ ways_down (source_in tables.now) (λ j. get_or targets.now j 0) n ways.old }
{
    for j in (1..n + 1).rev() {
        take_side(tables, targets, j, false, ways);
    }
}

// The links that lead up or across, from the first to the last.
fn ways_up(
    tables: &[u16; TABLE_SIZE],
    targets: &[u16; LINKS],
    n: usize,
    ways: &mut [u16; MAX_NODES],
)
    requires { (n ≤ max_couplings) × OnNodes (source_in tables.now) (λ j. get_or targets.now j 0) n }
    ensures { ways.new ≡ ways_up (source_in tables.now) (λ j. get_or targets.now j 0) n 1 ways.old }
{
    for j in 1..n + 1 {
        take_side(tables, targets, j, true, ways);
    }
}

// The table of a model whose components and couplings keep their lines, where the words of the links are the couplings' nodes.
pub fn count_ways(
    components: &[u8],
    couplings: &[u8],
    tables: &[u16; TABLE_SIZE],
    targets: &[u16; LINKS],
    ways: &mut [u16; MAX_NODES],
)
    requires { (length (components_in components.now) ≤ max_components) × (length (couplings_in couplings.now) ≤ max_couplings) × (length ways.old ≡ port_nodes * max_components)
        × Placed (components_in components.now) (couplings_in couplings.now) × Joined (components_in components.now) (couplings_in couplings.now) targets.now tables.now }
    ensures { WaysCounted (components_in components.now) (couplings_in couplings.now) ways.new }
{
    table_couplings::mark_ports(components, false, 0, ways);
    let n = model_records::coupling_count(couplings);
    ways_down(tables, targets, n, ways);
    ways_up(tables, targets, n, ways);
}

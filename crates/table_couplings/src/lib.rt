// The tables of a call by node and by link, filled from a model's couplings: coupling i is link i + 1.
#![tactic(auto)]

ghost use Rattle.std.specs.Prelude.{◌≡◌, ◌+◌, ◌*◌, ◌<◌, ◌≤◌, length, get_or};
ghost use Rattle.definition.specs.Limits.{max_components, max_couplings};
ghost use Rattle.model_records.specs.Values.{coupling_of, components_in, couplings_in};
ghost use Rattle.spec_step.specs.Tables.{port_nodes, source_number, target_number};
ghost use Rattle.table_couplings.specs.Links.{side_node, source_in, link_end, Held, OnNodes, Joined, begun, port_flag, flag_at, marked, spread, spread_up, spread_down, by_coupling};

use limits::{MAX_NODES, OUTPUTS_AT, PORT_COUNT, PORT_NODES};
use model_records::Coupling;
use table_words::{FIRST_AT, LINKS, LIVE_AT, NEXT_AT, SOURCE_AT, TABLE_SIZE};

// The two ends of a coupling, as the contracts name them.
#[derive(Clone, Copy)]
pub enum End {
    Source,
    Target,
}

// Port q of component c, on its output side or on its input side.
fn side_node(output: bool, c: u8, q: u8) -> u16
    ensures { result ≡ side_node output c q }
{
    if output {
        PORT_NODES as u16 * c as u16 + (PORT_COUNT as u16 + q as u16)
    } else {
        PORT_NODES as u16 * c as u16 + q as u16
    }
}

// A coupling from a parent begins at an input, any other at an output.
fn source_node(components: &[u8], k: Coupling) -> u16
    ensures { result ≡ source_number (components_in components.now) (coupling_of k) }
{
    let inward = model_records::is_child(components, k.source as usize, k.target as usize);
    side_node(!inward, k.source, k.source_port)
}

// A coupling to a parent ends at an output, any other at an input.
fn target_node(components: &[u8], k: Coupling) -> u16
    ensures { result ≡ target_number (components_in components.now) (coupling_of k) }
{
    let outward = model_records::is_child(components, k.target as usize, k.source as usize);
    side_node(outward, k.target, k.target_port)
}

fn link_count(couplings: &[u8]) -> u16
    requires { length (couplings_in couplings.now) ≤ max_couplings }
    ensures { result ≡ length (couplings_in couplings.now) }
{
    model_records::coupling_count(couplings) as u16
}

// The node where each link begins, in its table, and the node where it ends; each coupling is read once.
pub fn put_ends(
    components: &[u8],
    couplings: &[u8],
    targets: &mut [u16; LINKS],
    t: &mut [u16; TABLE_SIZE],
)
    requires { (length (couplings_in couplings.now) ≤ max_couplings) × (length targets.old ≡ max_couplings + 1) }
    ensures { Held (link_end End.Target (components_in components.now) (couplings_in couplings.now)) (length (couplings_in couplings.now)) targets.new
        × (t.new ≡ begun (components_in components.now) (couplings_in couplings.now) t.old) }
{
    let n = model_records::coupling_count(couplings);
    for i in 0..n {
        let k = model_records::coupling_at(couplings, i);
        t[SOURCE_AT + i + 1] = source_node(components, k);
        targets[i + 1] = target_node(components, k);
    }
}

// Whether c is the root, or whether it is an atomic.
#[tactic(auto, unfolding(crate::specs::Links::port_flag))]
fn port_flag(components: &[u8], root: bool, c: usize) -> u16
    ensures { result ≡ port_flag root (components_in components.now) c }
{
    if root {
        u16::from(c == 0)
    } else {
        u16::from(model_records::is_atomic(components, c))
    }
}

// 1 at the ports where messages begin, the root's inputs and the atomics' outputs, or at those where they end, the atomics' inputs and the
// root's outputs, and 0 at all others; four ports at once.
pub fn mark_ports(components: &[u8], sources: bool, at: usize, t: &mut [u16])
    requires { at + port_nodes * length (components_in components.now) ≤ length t.old }
    ensures { t.new ≡ marked at (flag_at sources) (components_in components.now) t.old }
{
    let n = model_records::component_count(components);
    for c in 0..n {
        let x = at + PORT_NODES * c;
        table_words::put_four(t, x, port_flag(components, sources, c));
        table_words::put_four(t, x + OUTPUTS_AT, port_flag(components, !sources, c));
    }
}

// Where x is live, so is y.
fn spread_one(x: u16, y: u16, t: &mut [u16; TABLE_SIZE])
    requires { (x < port_nodes * max_components) × (y < port_nodes * max_components) }
    ensures { t.new ≡ spread x y t.old }
{
    if !(t[LIVE_AT + x as usize] == 0) {
        t[LIVE_AT + y as usize] = 1;
    }
}

// Along link j.
fn spread_link(targets: &[u16; LINKS], j: u16, t: &mut [u16; TABLE_SIZE])
    requires { (j ≤ max_couplings) × (source_in t.old j < port_nodes * max_components) × (get_or targets.now j 0 < port_nodes * max_components) }
    ensures { t.new ≡ spread (source_in t.old j) (get_or targets.now j 0) t.old }
{
    let at = j as usize;
    let x = t[SOURCE_AT + at];
    let y = targets[at];
    spread_one(x, y, t);
}

// Outputs, from the deepest components up. Two directions, two functions: one for both would take the range, for a loop of one line.
fn spread_up(targets: &[u16; LINKS], n: u16, t: &mut [u16; TABLE_SIZE])
    requires { (n ≤ max_couplings) × OnNodes (source_in t.old) (λ j. get_or targets.now j 0) n }
    ensures { t.new ≡ spread_up (source_in t.old) (λ j. get_or targets.now j 0) n t.old }
{
    for j in (1..n + 1).rev() {
        spread_link(targets, j, t);
    }
}

// Inputs, from the root down.
fn spread_down(targets: &[u16; LINKS], n: u16, t: &mut [u16; TABLE_SIZE])
    requires { (n ≤ max_couplings) × OnNodes (source_in t.old) (λ j. get_or targets.now j 0) n }
    ensures { t.new ≡ spread_down (source_in t.old) (λ j. get_or targets.now j 0) n 1 t.old }
{
    for j in 1..n + 1 {
        spread_link(targets, j, t);
    }
}

// Every other table by node and by link, where the nodes of the links stand.
pub fn fill_linked(
    components: &[u8],
    couplings: &[u8],
    targets: &[u16; LINKS],
    t: &mut [u16; TABLE_SIZE],
)
    requires { (length (components_in components.now) ≤ max_components) × (length (couplings_in couplings.now) ≤ max_couplings)
        × Joined (components_in components.now) (couplings_in couplings.now) targets.now t.old }
    ensures { t.new ≡ by_coupling (components_in components.now) (couplings_in couplings.now) t.old }
{
    let n = link_count(couplings);
    table_words::link_all(targets, n, FIRST_AT, MAX_NODES, NEXT_AT, t);
    mark_ports(components, true, LIVE_AT, t);
    spread_up(targets, n, t);
    spread_down(targets, n, t);
}

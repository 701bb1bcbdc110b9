// One step's bags, pulled: what is collected at a port, through the couplings that end there. Output collection alternates between a
// function for a coupled component and one for a child, input collection between a port and one that leads to it. Only open nodes are
// entered: those that a source can reach at all, and that something may reach in this step. A bag is put into a buffer, where the next key
// goes to `end`.
#![tactic(auto)]

ghost use Rattle.std.specs.Prelude.{◌≡◌, ◌+◌, ◌*◌, ◌%◌, ◌/◌, ◌<◌, ◌≤◌, get_or};
ghost use Rattle.definition.specs.Limits.{max_ancestors, max_couplings};
ghost use Rattle.law_routes.specs.Nodes.{input_node, output_node};
ghost use Rattle.spec_step.specs.Ranges.{max_nodes, InRange};
ghost use Rattle.spec_step.specs.Put.{puts};
ghost use Rattle.spec_step.specs.Tables.{first_at, next_at, source_at, node_port};
ghost use Rattle.step_collect.specs.Collected.{comes_from, open_in, arriving, leaving, bag_put, root_put, ComponentOf, NodeOf};

mod inputs;
mod outputs;

use inputs::collect_input;
use limits::{MAX_ANCESTORS, PORT_COUNT};
use outputs::collect_coupled;
use step_keys::put_given;
use table_words::{
    FIRST_AT, FLAGS_SIZE, LIVE_AT, NEXT_AT, SOURCE_AT, TABLE_SIZE, mark_at, reach_at, word_in,
};

const PORTS: u32 = 4;

const PORT_NODES: u32 = 8;

// ---- nodes and links

fn port_of(node: u32) -> u8
    ensures { result ≡ node_port node }
{
    (node % PORTS) as u8
}

pub fn input_node(c: u16, q: u8) -> u32
    ensures { result ≡ input_node c q }
{
    PORT_NODES * c as u32 + q as u32
}

fn root_output(q: u8) -> u32
    ensures { result ≡ output_node 0 q }
{
    PORTS + q as u32
}

// The link of the first coupling that ends at a node; the one after a link; and the node where a link's coupling begins.
pub fn first_link(tables: &[u16; TABLE_SIZE], target: u32) -> u16
    requires { target < max_nodes }
    ensures { result ≡ get_or tables.now (first_at + target) 0 }
{
    word_in(tables, FIRST_AT + target as usize)
}

pub fn next_link(tables: &[u16; TABLE_SIZE], link: u16) -> u16
    requires { link ≤ max_couplings }
    ensures { result ≡ get_or tables.now (next_at + link) 0 }
{
    word_in(tables, NEXT_AT + link as usize)
}

pub fn source_of(tables: &[u16; TABLE_SIZE], link: u16) -> u32
    requires { link ≤ max_couplings }
    ensures { result ≡ get_or tables.now (source_at + link) 0 }
{
    word_in(tables, SOURCE_AT + link as usize) as u32
}

// Something may come from a node in this step.
pub fn may_come(flags: &[u32; FLAGS_SIZE], source: u32) -> bool
    requires { source < max_nodes }
    ensures { result ≡ comes_from flags.now source }
{
    let c = (source / PORT_NODES) as usize;
    if source % PORT_NODES < PORTS {
        reach_at(flags, c) != 0
    } else {
        mark_at(flags, c) != 0
    }
}

fn is_open(tables: &[u16; TABLE_SIZE], flags: &[u32; FLAGS_SIZE], node: u32) -> bool
    requires { node < max_nodes }
    ensures { result ≡ open_in tables.now flags.now node }
{
    (word_in(tables, LIVE_AT + node as usize) != 0) & may_come(flags, node)
}

// ---- one port

// What arrives at an input node, and what leaves at an output node. Most ports are closed in most steps, which is seen here without a call.
fn collect_arriving(
    phases: &[u8],
    tables: &[u16; TABLE_SIZE],
    flags: &[u32; FLAGS_SIZE],
    given: &[u8],
    port: u8,
    target: u32,
    buf: &mut [u32],
    end: usize,
) -> usize
    requires { NodeOf tables.now target }
    ensures { (buf.new, result)
        ≡ puts port (arriving phases.now tables.now flags.now given.now max_ancestors target) (buf.old, end) }
{
    if target < PORT_NODES {
        return put_given(given, port_of(target), port, buf, end);
    }
    if !is_open(tables, flags, target) {
        return end;
    }
    collect_input(
        phases,
        tables,
        flags,
        given,
        MAX_ANCESTORS,
        port,
        target,
        buf,
        end,
    )
}

fn collect_leaving(
    phases: &[u8],
    tables: &[u16; TABLE_SIZE],
    flags: &[u32; FLAGS_SIZE],
    port: u8,
    target: u32,
    buf: &mut [u32],
    end: usize,
) -> usize
    requires { NodeOf tables.now target }
    ensures { (buf.new, result)
        ≡ puts port (leaving phases.now tables.now flags.now max_ancestors target) (buf.old, end) }
{
    if !is_open(tables, flags, target) {
        return end;
    }
    collect_coupled(phases, tables, flags, MAX_ANCESTORS, port, target, buf, end)
}

// ---- a bag

// The bag of component c, port by port; empty at once where nothing may reach c. What is given reaches the root whatever its flag.
pub fn collect_bag(
    phases: &[u8],
    tables: &[u16; TABLE_SIZE],
    flags: &[u32; FLAGS_SIZE],
    given: &[u8],
    c: u16,
    buf: &mut [u32],
) -> usize
    requires { ComponentOf tables.now c }
    ensures { (buf.new, result)
        ≡ bag_put phases.now tables.now flags.now given.now c buf.old }
{
    if (c != 0) & (reach_at(flags, c as usize) == 0) {
        return 0;
    }
    let mut end: usize = 0;
    for q in 0..PORT_COUNT {
        let target = input_node(c, q);
        end = collect_arriving(phases, tables, flags, given, q, target, buf, end);
    }
    end
}

// The root's output bag, port by port.
pub fn collect_root(
    phases: &[u8],
    tables: &[u16; TABLE_SIZE],
    flags: &[u32; FLAGS_SIZE],
    buf: &mut [u32],
) -> usize
    requires { InRange tables.now }
    ensures { (buf.new, result) ≡ root_put phases.now tables.now flags.now buf.old }
{
    let mut end: usize = 0;
    for q in 0..PORT_COUNT {
        let target = root_output(q);
        end = collect_leaving(phases, tables, flags, q, target, buf, end);
    }
    end
}

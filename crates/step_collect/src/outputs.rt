// Output collection, by turns: a coupled component asks its children, and a child that is coupled is asked in the same way.
ghost use Rattle.std.specs.Prelude.{◌≡◌, ◌<◌};
ghost use Rattle.spec_step.specs.Ranges.{max_nodes};
ghost use Rattle.spec_step.specs.Put.{puts};
ghost use Rattle.spec_step.specs.Tables.{atomic_node};
ghost use Rattle.step_collect.specs.Collected.{sent_from, leaving, leaving_child, NodeOf, OpenNode};

use super::{PORT_NODES, first_link, is_open, next_link, port_of, source_of};
use limits::MAX_COUPLINGS;
use step_keys::put_sent;
use table_words::{FLAGS_SIZE, KINDS_AT, TABLE_SIZE, mark_at, word_in};

// The component of a node is an atomic.
pub fn is_atomic(tables: &[u16; TABLE_SIZE], node: u32) -> bool
    requires { node < max_nodes }
    ensures { result ≡ atomic_node tables.now node }
{
    word_in(tables, KINDS_AT + (node / PORT_NODES) as usize) == 1
}

// What the atomic of an output node puts out there.
pub fn put_output(
    phases: &[u8],
    flags: &[u32; FLAGS_SIZE],
    port: u8,
    source: u32,
    buf: &mut [u32],
    end: usize,
) -> usize
    requires { source < max_nodes }
    ensures { (buf.new, result) ≡ puts port (sent_from phases.now flags.now source) (buf.old, end) }
{
    let mark = mark_at(flags, (source / PORT_NODES) as usize);
    put_sent(phases, mark, port_of(source), port, buf, end)
}

// What the coupled component of an output node, which is open, puts out there, at most `depth` levels down.
#[cycle(collect_child_collect_coupled)]
pub fn collect_coupled(
    phases: &[u8],
    tables: &[u16; TABLE_SIZE],
    flags: &[u32; FLAGS_SIZE],
    depth: usize,
    port: u8,
    target: u32,
    buf: &mut [u32],
    end: usize,
) -> usize
    requires { OpenNode tables.now flags.now target }
    ensures { (buf.new, result)
        ≡ puts port (leaving phases.now tables.now flags.now depth target) (buf.old, end) }
{
    if depth == 0 {
        return end;
    }
    let mut next = end;
    let mut link = first_link(tables, target);
    for _ in 0..MAX_COUPLINGS {
        if link == 0 {
            return next;
        }
        let source = source_of(tables, link);
        next = collect_child(phases, tables, flags, depth - 1, port, source, buf, next);
        link = next_link(tables, link);
    }
    next
}

// What the child of an output node puts out there.
#[cycle(collect_child_collect_coupled)]
fn collect_child(
    phases: &[u8],
    tables: &[u16; TABLE_SIZE],
    flags: &[u32; FLAGS_SIZE],
    depth: usize,
    port: u8,
    source: u32,
    buf: &mut [u32],
    end: usize,
) -> usize
    requires { NodeOf tables.now source }
    ensures { (buf.new, result)
        ≡ puts port (leaving_child phases.now tables.now flags.now depth source) (buf.old, end) }
{
    if is_atomic(tables, source) {
        return put_output(phases, flags, port, source, buf, end);
    }
    if !is_open(tables, flags, source) {
        return end;
    }
    collect_coupled(phases, tables, flags, depth, port, source, buf, end)
}

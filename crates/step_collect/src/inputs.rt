// Input collection, by turns: an input node asks the nodes that lead to it, and one that is its parent's input is asked in the same way.
ghost use Rattle.std.specs.Prelude.{◌≡◌};
ghost use Rattle.spec_step.specs.Put.{puts};
ghost use Rattle.step_collect.specs.Collected.{arriving, arriving_from, NodeOf, OpenInput};

use super::outputs::{collect_coupled, is_atomic, put_output};
use super::{PORT_NODES, PORTS, first_link, is_open, next_link, port_of, source_of};
use limits::{MAX_ANCESTORS, MAX_COUPLINGS};
use step_keys::put_given;
use table_words::{FLAGS_SIZE, TABLE_SIZE};

// What arrives at an input node, at most `depth` levels up. It is an open node of a component other than the root: the callers have seen that,
// since a call costs more than the test.
#[cycle(collect_input_collect_source)]
pub fn collect_input(
    phases: &[u8],
    tables: &[u16; TABLE_SIZE],
    flags: &[u32; FLAGS_SIZE],
    given: &[u8],
    depth: usize,
    port: u8,
    target: u32,
    buf: &mut [u32],
    end: usize,
) -> usize
    requires { OpenInput tables.now flags.now target }
    ensures { (buf.new, result)
        ≡ puts port (arriving phases.now tables.now flags.now given.now depth target) (buf.old, end) }
{
    if depth == 0 {
        return end;
    }
    let mut next = end;
    let mut link = first_link(tables, target);
    for _ in 0..MAX_COUPLINGS {
        if link == 0 {
            return next;
        }
        let source = source_of(tables, link);
        next = collect_source(
            phases,
            tables,
            flags,
            given,
            depth - 1,
            port,
            source,
            buf,
            next,
        );
        link = next_link(tables, link);
    }
    next
}

// What comes from a node that leads to an input node: a sibling's output, or the parent's input. What is given at the root, an atomic
// sibling's output and a node that is closed in this step are no calls.
#[cycle(collect_input_collect_source)]
fn collect_source(
    phases: &[u8],
    tables: &[u16; TABLE_SIZE],
    flags: &[u32; FLAGS_SIZE],
    given: &[u8],
    depth: usize,
    port: u8,
    source: u32,
    buf: &mut [u32],
    end: usize,
) -> usize
    requires { NodeOf tables.now source }
    ensures { (buf.new, result)
        ≡ puts port (arriving_from phases.now tables.now flags.now given.now depth source) (buf.old, end) }
{
    if source % PORT_NODES < PORTS {
        if source < PORT_NODES {
            return put_given(given, port_of(source), port, buf, end);
        }
        if !is_open(tables, flags, source) {
            return end;
        }
        return collect_input(phases, tables, flags, given, depth, port, source, buf, end);
    }
    if is_atomic(tables, source) {
        return put_output(phases, flags, port, source, buf, end);
    }
    if !is_open(tables, flags, source) {
        return end;
    }
    collect_coupled(phases, tables, flags, MAX_ANCESTORS, port, source, buf, end)
}

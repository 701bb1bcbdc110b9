// The rows of the flat form: one probing step, its bags collected at every end as in any other step, each message made a row, and the rows
// sorted. So a route is walked once, and ways that lead nowhere are not entered.
#![tactic(auto)]

ghost use Rattle.std.specs.Prelude.{◌≡◌, map, ◌<◌, ◌≤◌, leb, length, take};
ghost use Rattle.definition.specs.Limits.{max_components};
ghost use Rattle.definition.specs.Lists.{sort_by};
ghost use Rattle.flat_rows.specs.Rows.{row_number, row_of, probe_rows};
ghost use Rattle.flat_rows.specs.Put.{root_rows, position_rows, all_rows, CanAdd, Held, CanProbe};

use flat_probe::{put_flags, put_probes};
use flat_ranks::rank_of;
use limits::{MAX_COMPONENTS, PHASE_SIZE};
use step_collect::{collect_bag, collect_root};
use table_words::{FLAGS_SIZE, NUMBERS_AT, TABLE_SIZE, row_in};

const PROBE_BYTES: usize = MAX_COMPONENTS * PHASE_SIZE;

// A row of four bytes as one number, the first byte highest.
fn row_number(source: u32, from: u32, target: u32, to: u32) -> u32
    ensures { result ≡ row_number source from target to }
{
    source % 256 * 16777216 + from % 256 * 65536 + target % 256 * 256 + to % 256
}

// The row of a message that came to an end.
fn row_of(tables: &[u16; TABLE_SIZE], end: u32, key: u32) -> u32
    ensures { result ≡ row_of tables.now end key }
{
    let node = key % 65536;
    let rank = rank_of(tables, node / 8);
    row_number(rank, node % 4, end, key / 65536)
}

// The first messages of a buffer, which came to one end, each made its row in its place.
fn make_rows(tables: &[u16; TABLE_SIZE], end: u32, rows: &mut [u32], count: usize)
    requires { count ≤ length rows.old }
    ensures { take count rows.new ≡ map (row_of tables.now end) (take count rows.old) }
{
    for i in 0..count {
        rows[i] = row_of(tables, end, rows[i]);
    }
}

// The rows that end at the root, at the front of `rows`.
fn add_root(
    phases: &[u8],
    tables: &[u16; TABLE_SIZE],
    flags: &[u32; FLAGS_SIZE],
    rows: &mut [u32],
) -> usize
    requires { CanAdd tables.now (root_rows phases.now tables.now flags.now) (length rows.old) }
    ensures { Held (root_rows phases.now tables.now flags.now) rows.new result }
{
    let count = collect_root(phases, tables, flags, rows);
    make_rows(tables, 0, rows, count);
    count
}

// The rows that end at the atomic at position i, at the front of `rows`.
fn add_atomic(
    phases: &[u8],
    tables: &[u16; TABLE_SIZE],
    flags: &[u32; FLAGS_SIZE],
    given: &[u8],
    i: u8,
    rows: &mut [u32],
) -> usize
    requires { (i < max_components) × CanAdd tables.now (position_rows phases.now tables.now flags.now given.now i) (length rows.old) }
    ensures { Held (position_rows phases.now tables.now flags.now given.now i) rows.new result }
{
    let c = row_in(tables, NUMBERS_AT, i as u16);
    let count = collect_bag(phases, tables, flags, given, c, rows);
    make_rows(tables, i as u32 + 1, rows, count);
    count
}

// The rows of all ends, each end's behind those before it.
fn add_all(
    phases: &[u8],
    tables: &[u16; TABLE_SIZE],
    flags: &[u32; FLAGS_SIZE],
    given: &[u8],
    n: u8,
    rows: &mut [u32],
) -> usize
    requires { (n ≤ max_components) × CanAdd tables.now (all_rows phases.now tables.now flags.now given.now n) (length rows.old) }
    ensures { Held (all_rows phases.now tables.now flags.now given.now n) rows.new result }
{
    let mut at = add_root(phases, tables, flags, rows);
    for i in 0..n {
        at += add_atomic(phases, tables, flags, given, i, &mut rows[at..]);
    }
    at
}

// The rows of the flat form of a model with n atomics, sorted, at the front of `rows`; what stands behind them is left open.
pub fn flat_rows(tables: &[u16; TABLE_SIZE], n: u8, rows: &mut [u32]) -> usize
    requires { CanProbe tables.now n (length rows.old) }
    ensures { Held (sort_by leb (probe_rows tables.now n)) rows.new result }
{
    let mut phases: [u8; PROBE_BYTES] = [0; PROBE_BYTES];
    put_probes(&mut phases);
    let mut flags: [u32; FLAGS_SIZE] = [0; FLAGS_SIZE];
    put_flags(&mut flags);
    let given: [u8; 12] = [0, 0, 0, 1, 1, 0, 2, 2, 0, 3, 3, 0];
    let count = add_all(&phases, tables, &flags, &given, n, rows);
    sort::sort(rows, count);
    count
}

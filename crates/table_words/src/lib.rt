// The tables of a call are one slice of numbers: where its regions begin, and how words of it are read and written. The flags of a step are
// another, which is read here.
#![tactic(auto)]

ghost use Rattle.std.specs.Prelude.{◌≡◌, ◌+◌, ◌<◌, ◌≤◌, get_or, length};
ghost use Rattle.definition.specs.Limits.{max_components};
ghost use Rattle.law_base.specs.Ranges.{ranges_of};
ghost use Rattle.spec_step.specs.Flags.{marks_in, reached_in};
ghost use Rattle.spec_step.specs.Tables.{sibling_at, atomics_at, table_size, atomics_in, ranges_in};
ghost use Rattle.table_words.specs.Writes.{column, put_in, link_at, linked};

use limits::{MAX_COMPONENTS, MAX_COUPLINGS, MAX_NODES};

// By position among the atomics: its component number.
pub const NUMBERS_AT: usize = 0;

// By component: position among the atomics, kind, order, first phase record, parent, first rule that names it and one past the last, first child, next sibling.
pub const POSITIONS_AT: usize = MAX_COMPONENTS;

pub const KINDS_AT: usize = 2 * MAX_COMPONENTS;

pub const ORDERS_AT: usize = 3 * MAX_COMPONENTS;

pub const PHASES_AT: usize = 4 * MAX_COMPONENTS;

pub const PARENTS_AT: usize = 5 * MAX_COMPONENTS;

pub const RULES_FROM_AT: usize = 6 * MAX_COMPONENTS;

pub const RULES_TO_AT: usize = 7 * MAX_COMPONENTS;

pub const CHILD_AT: usize = 8 * MAX_COMPONENTS;

pub const SIBLING_AT: usize = 9 * MAX_COMPONENTS;

// By node: the first link of the couplings that end there, and whether a source can lead there.
pub const FIRST_AT: usize = 10 * MAX_COMPONENTS;

pub const LIVE_AT: usize = FIRST_AT + MAX_NODES;

// By link (coupling i is link i + 1, and link 0 is none): the next link of the same target, and the node where the coupling begins.
pub const LINKS: usize = MAX_COUPLINGS + 1;

pub const NEXT_AT: usize = LIVE_AT + MAX_NODES;

pub const SOURCE_AT: usize = NEXT_AT + LINKS;

// How many components there are.
pub const COUNT_AT: usize = SOURCE_AT + LINKS;

// How many atomics there are.
pub const ATOMICS_AT: usize = COUNT_AT + 1;

// Whether the high ends of elapsed ranges are excluded, 0 for no.
pub const RANGES_AT: usize = ATOMICS_AT + 1;

pub const TABLE_SIZE: usize = RANGES_AT + 1;

// The flags of a step: first the mark of each component, then for each whether something may reach its inputs.
pub const FLAGS_SIZE: usize = 2 * MAX_COMPONENTS;

// A word; past the end stand zeros.
pub fn word_at(t: &[u16], at: usize) -> u16
    ensures { result ≡ get_or t.now at 0 }
{
    if at < t.len() { t[at] } else { 0 }
}

// A word at a place that the tables have: nothing is tested.
pub fn word_in(t: &[u16; TABLE_SIZE], at: usize) -> u16
    requires { at < table_size }
    ensures { result ≡ get_or t.now at 0 }
{
    t[at]
}

// Row i of a region by component or position that begins at `at`.
pub fn row_in(t: &[u16; TABLE_SIZE], at: usize, i: u16) -> u16
    requires { (at ≤ sibling_at) × (i < max_components) }
    ensures { result ≡ get_or t.now (at + i) 0 }
{
    word_in(t, at + i as usize)
}

// How many atomics there are.
pub fn atomics_in(t: &[u16; TABLE_SIZE]) -> u8
    requires { get_or t.now atomics_at 0 ≤ max_components }
    ensures { result ≡ atomics_in t.now }
{
    word_in(t, ATOMICS_AT) as u8
}

// Whether the high ends of elapsed ranges are excluded.
pub fn half_open_in(t: &[u16; TABLE_SIZE]) -> bool
    ensures { ranges_of result ≡ ranges_in t.now }
{
    word_in(t, RANGES_AT) != 0
}

// The mark of component c.
pub fn mark_at(flags: &[u32; FLAGS_SIZE], c: usize) -> u32
    requires { c < max_components }
    ensures { result ≡ get_or (marks_in flags.now) c 0 }
{
    flags[c]
}

// Not 0 where something may reach component c.
pub fn reach_at(flags: &[u32; FLAGS_SIZE], c: usize) -> u32
    requires { c < max_components }
    ensures { result ≡ get_or (reached_in flags.now) c 0 }
{
    flags[MAX_COMPONENTS + c]
}

// Row k of a region holds v, where the region has such a row.
pub fn put_in(t: &mut [u16], at: usize, size: usize, k: usize, v: u16)
    requires { at + size ≤ length t.old }
    ensures { t.new ≡ put_in at size k v t.old }
{
    if k < size {
        t[at + k] = v;
    }
}

// Four words alike.
pub fn put_four(t: &mut [u16], at: usize, v: u16)
    requires { at + 4 ≤ length t.old }
    ensures { t.new ≡ column at (λ _. v) 4 0 t.old }
{
    t[at] = v;
    t[at + 1] = v;
    t[at + 2] = v;
    t[at + 3] = v;
}

// Link j before the links of key k.
fn link(t: &mut [u16], first: usize, size: usize, next: usize, k: usize, j: u16)
    requires { (first + size ≤ length t.old) × (next + j < length t.old) }
    ensures { t.new ≡ link_at first size next k j t.old }
{
    if k < size {
        t[next + j as usize] = t[first + k];
        t[first + k] = j;
    }
}

// The links 1 to n by their keys.
pub fn link_all(keys: &[u16], n: u16, first: usize, size: usize, next: usize, t: &mut [u16])
    requires { (first + size ≤ length t.old) × (next + n < length t.old) }
    ensures { t.new ≡ linked first size next (λ j. get_or keys.now j 0) n t.old }
{
    // Not over `1..n + 1`: n may be the largest number of its type.
    for i in (0..n).rev() {
        let j = i + 1;
        let k = word_at(keys, j as usize) as usize;
        link(t, first, size, next, k, j);
    }
}

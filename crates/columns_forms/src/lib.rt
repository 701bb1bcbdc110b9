// Where a record's numbers lie in the two forms of a trace: records in a row, and columns.
#![tactic(auto)]

ghost use Rattle.std.specs.Prelude.{◌≡◌, length, ◌+◌, ◌*◌, ◌≤◌};
ghost use Rattle.columns_records.specs.Places.{HeadWithin};
ghost use Rattle.columns_forms.specs.Forms.{in_row, in_columns, row_places, columns_from, next_column, pair_of, word_max};

use columns_records::{Apart, Pair, Places};
use limits::{COLUMNS_HEAD, MESSAGE_SIZE, RECORD_COUNT_AT, RECORD_HEAD, RECORD_STEP_AT};
use little_endian::{u16_within, u64_within};

// Messages in a row lie as far apart as a message is long.
pub fn in_row() -> Apart
    ensures { result ≡ in_row }
{
    Apart {
        ports: MESSAGE_SIZE,
        values: MESSAGE_SIZE,
    }
}

// In columns ports lie beside each other, and so do values.
pub fn in_columns() -> Apart
    ensures { result ≡ in_columns }
{
    Apart {
        ports: 1,
        values: 2,
    }
}

// The first value of a record in a row stands behind its first port.
const FIRST_VALUE_AT: usize = RECORD_HEAD + 1;

// A record in a row, from a position on.
pub fn row_places(at: usize) -> Places
    requires { at + 13 ≤ word_max }
    ensures { result ≡ row_places at }
{
    Places {
        moment: at,
        step: at + RECORD_STEP_AT,
        count: at + RECORD_COUNT_AT,
        ports: at + RECORD_HEAD,
        values: at + FIRST_VALUE_AT,
    }
}

// The first record of n in columns, which have k messages. What stands before a number of a record in a row stands, of all n records,
// before the column of that number.
pub fn columns_from(n: usize, k: usize) -> Places
    requires { 4 + 12 * n + k ≤ word_max }
    ensures { result ≡ columns_from n k }
{
    Places {
        moment: COLUMNS_HEAD,
        step: COLUMNS_HEAD + RECORD_STEP_AT * n,
        count: COLUMNS_HEAD + RECORD_COUNT_AT * n,
        ports: COLUMNS_HEAD + RECORD_HEAD * n,
        values: COLUMNS_HEAD + RECORD_HEAD * n + k,
    }
}

// The record in columns after one of so many messages.
pub fn next_column(at: Places, count: usize) -> Places
    requires { (at.moment + 8 ≤ word_max) × (at.step + 2 ≤ word_max) × (at.count + 2 ≤ word_max) × (at.ports + count ≤ word_max) × (at.values + 2 * count ≤ word_max) }
    ensures { result ≡ next_column at count }
{
    Places {
        moment: at.moment + 8,
        step: at.step + 2,
        count: at.count + 2,
        ports: at.ports + count,
        values: at.values + 2 * count,
    }
}

// The pair of a record.
pub fn pair_at(s: &[u8], at: Places) -> Pair
    requires { HeadWithin (length s.now) at }
    ensures { result ≡ pair_of at s.now }
{
    Pair {
        moment: u64_within(s, at.moment),
        step: u16_within(s, at.step),
    }
}

// How many records a trace has, and how many messages.
#[derive(Clone, Copy)]
pub struct Sizes {
    pub records: usize,
    pub messages: usize,
}

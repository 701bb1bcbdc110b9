// Columns gone over: whether they come from a trace, and how many records and messages they have. Nothing is written.
#![tactic(auto)]

ghost use Rattle.std.specs.Prelude.{◌≡◌, length, ◌+◌, ◌*◌, ◌≤◌, None};
ghost use Rattle.law_columns.specs.ByPosition.{columns_scanned};
ghost use Rattle.columns_forms.specs.Forms.{columns_from, counts_by, columns_fit, found_of};

use columns_forms::{Sizes, columns_from, in_columns, next_column, pair_at};
use columns_records::{Pair, record_fits};
use limits::{COLUMNS_HEAD, MESSAGE_SIZE, RECORD_COUNT_AT, RECORD_HEAD};
use little_endian::{u16_within, u32_at};

// The message counts of n records, added up. As n has 32 bits, the sum is in range.
fn count_messages(s: &[u8], n: u32) -> usize
    requires { 4 + 12 * n ≤ length s.now }
    ensures { (result ≡ counts_by n (4 + 10 * n) s.now) × (result ≤ 65535 * n) }
{
    let mut at = COLUMNS_HEAD + RECORD_COUNT_AT * n as usize;
    let mut sum: usize = 0;
    for _ in 0..n {
        sum += u16_within(s, at) as usize;
        at += 2;
    }
    sum
}

// Each of n records passes after the one before it; they have k messages.
fn columns_fit(s: &[u8], n: usize, k: usize) -> bool
    requires { (4 + 12 * n + 3 * k ≤ length s.now) × (counts_by n (4 + 10 * n) s.now ≤ k) }
    ensures { result ≡ columns_fit n None (columns_from n k) s.now }
{
    let mut at = columns_from(n, k);
    let mut last: Option<Pair> = None;
    for _ in 0..n {
        if !record_fits(s, at, in_columns(), last) {
            return false;
        }
        last = Some(pair_at(s, at));
        at = next_column(at, u16_within(s, at.count) as usize);
    }
    true
}

// "18 when the columns do not come from a trace"
pub fn scan_columns(s: &[u8]) -> Option<Sizes>
    ensures { found_of 18 result ≡ columns_scanned s.now }
{
    let count = u32_at(s, 0);
    let n = count as usize;
    let heads = COLUMNS_HEAD + RECORD_HEAD * n;
    if s.len() < heads {
        return None;
    }
    let k = count_messages(s, count);
    if s.len() != heads + MESSAGE_SIZE * k {
        return None;
    }
    if !columns_fit(s, n, k) {
        return None;
    }
    Some(Sizes {
        records: n,
        messages: k,
    })
}

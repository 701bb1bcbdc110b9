// A trace gone over once: whether it is one, and how many records and messages it has. Nothing is written.
#![tactic(auto)]

ghost use Rattle.std.specs.Prelude.{◌≡◌, ◌&&◌, length, ◌≤◌};
ghost use Rattle.law_columns.specs.ByPosition.{scanned};
ghost use Rattle.columns_records.specs.Places.{fits_after};
ghost use Rattle.columns_forms.specs.Forms.{in_row, row_places, found_of};
ghost use Rattle.columns_scan.specs.Scans.{whole_at, sizes_of};

use columns_forms::{Sizes, in_row, pair_at, row_places};
use columns_records::{Pair, record_fits};
use limits::{MAX_RECORDS, MESSAGE_SIZE, RECORD_COUNT_AT, RECORD_HEAD};
use little_endian::u16_within;

// The record at a position is not cut.
fn is_whole(s: &[u8], at: usize) -> bool
    requires { at ≤ length s.now }
    ensures { result ≡ whole_at at s.now }
{
    let left = s.len() - at;
    if left < RECORD_HEAD {
        return false;
    }
    RECORD_HEAD + MESSAGE_SIZE * (u16_within(s, at + RECORD_COUNT_AT) as usize) <= left
}

// .. and passes after the one before it.
fn row_fits(s: &[u8], at: usize, last: Option<Pair>) -> bool
    requires { at ≤ length s.now }
    ensures { result ≡ (whole_at at s.now && fits_after last in_row (row_places at) s.now) }
{
    if !is_whole(s, at) {
        return false;
    }
    record_fits(s, row_places(at), in_row(), last)
}

// "17 when the bytes to rearrange are no trace"
pub fn scan_trace(s: &[u8]) -> Option<Sizes>
    ensures { found_of 17 result ≡ sizes_of (scanned s.now) }
{
    let mut at: usize = 0;
    let mut last: Option<Pair> = None;
    let mut records: usize = 0;
    let mut messages: usize = 0;
    // How far a turn goes is told by the record itself, so no range counts it.
    while at < s.len() {
        if !row_fits(s, at, last) {
            return None;
        }
        let count = u16_within(s, at + RECORD_COUNT_AT) as usize;
        last = Some(pair_at(s, row_places(at)));
        records += 1;
        messages += count;
        at += RECORD_HEAD + MESSAGE_SIZE * count;
    }
    if MAX_RECORDS < records {
        return None;
    }
    Some(Sizes { records, messages })
}

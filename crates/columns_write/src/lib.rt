// A trace written by columns, and columns written as a trace: one pass over the records, each put where it lies in the other form.
#![tactic(auto)]

ghost use Rattle.std.specs.Prelude.{◌≡◌, length, ◌+◌, ◌*◌, ◌≤◌};
ghost use Rattle.std.proofs.lemmas.List.Edits.{sets};
ghost use Rattle.definition.specs.Bytes.{bytes_of};
ghost use Rattle.columns_forms.specs.Forms.{columns_from, row_messages, counts_by, into_columns, into_row, ColumnsWithin};

use columns_forms::{columns_from, in_columns, in_row, next_column, row_places};
use columns_records::{Places, put_record};
use limits::{MESSAGE_SIZE, RECORD_COUNT_AT, RECORD_HEAD};
use little_endian::{put_number, u16_within};

// n records in a row, put into columns whose next places are `start`.
fn put_columns(s: &[u8], n: usize, start: Places, out: &mut [u8])
    requires { (12 * n + 3 * row_messages n 0 s.now ≤ length s.now) × ColumnsWithin (length out.old) n start (row_messages n 0 s.now) }
    ensures { out.new ≡ into_columns n 0 start s.now out.old }
{
    let mut at: usize = 0;
    let mut to = start;
    for _ in 0..n {
        let count = u16_within(s, at + RECORD_COUNT_AT) as usize;
        put_record(s, row_places(at), in_row(), out, to, in_columns());
        at += RECORD_HEAD + MESSAGE_SIZE * count;
        to = next_column(to, count);
    }
}

// "the record count (4 bytes), all moments, all steps, all message counts, all ports, all values": of n records with k messages.
pub fn write_columns(s: &[u8], n: usize, k: usize, out: &mut [u8])
    requires { (12 * n + 3 * row_messages n 0 s.now ≤ length s.now) × (row_messages n 0 s.now ≤ k) × (4 + 12 * n + 3 * k ≤ length out.old) }
    ensures { out.new ≡ into_columns n 0 (columns_from n k) s.now (sets out.old 0 (bytes_of 4 n)) }
{
    put_number(out, 0, 4, n as u64);
    put_columns(s, n, columns_from(n, k), out);
}

// n records with k messages in columns, put in a row.
pub fn write_trace(s: &[u8], n: usize, k: usize, out: &mut [u8])
    requires { (4 + 12 * n + 3 * k ≤ length s.now) × (counts_by n (4 + 10 * n) s.now ≤ k) × (12 * n + 3 * counts_by n (4 + 10 * n) s.now ≤ length out.old) }
    ensures { out.new ≡ into_row n (columns_from n k) 0 s.now out.old }
{
    let mut at = columns_from(n, k);
    let mut to: usize = 0;
    for _ in 0..n {
        let count = u16_within(s, at.count) as usize;
        put_record(s, at, in_columns(), out, row_places(to), in_row());
        at = next_column(at, count);
        to += RECORD_HEAD + MESSAGE_SIZE * count;
    }
}

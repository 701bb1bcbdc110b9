// A trace rearranged into columns, and columns back into a trace: judged whole before the first byte is written.
#![tactic(auto)]

ghost use Rattle.std.specs.Prelude.{◌≡◌};
ghost use Rattle.definition.specs.Pinned.TraceReader.{trace_to_columns, columns_to_trace};
ghost use Rattle.refusals.specs.Refusals.{settled};
ghost use Rattle.call_answers.specs.Answers.{wrote_of};
ghost use Rattle.call_answers.specs.Refused.{refused_writing};

use call_answers::Written;
use columns_check::scan_columns;
use columns_scan::scan_trace;
use columns_write::{write_columns, write_trace};
use limits::COLUMNS_HEAD;
use refusals::Refusal;

// Columns are as long as their trace and the record count. No sum is made before the buffer is known to hold it.
fn try_columns(trace: &[u8], out: &mut [u8]) -> Result<Written, Refusal>
    ensures { wrote_of out.new (settled refused_writing result) ≡ trace_to_columns trace.now out.old }
{
    let size = scan_trace(trace).ok_or(Refusal::NotATrace)?;
    if out.len() < COLUMNS_HEAD {
        return Err(Refusal::BufferTooShort);
    }
    if out.len() - COLUMNS_HEAD < trace.len() {
        return Err(Refusal::BufferTooShort);
    }
    write_columns(trace, size.records, size.messages, out);
    Ok(Written {
        number: 0,
        bytes: (trace.len() + COLUMNS_HEAD) as u64,
    })
}

pub fn trace_to_columns(trace: &[u8], out: &mut [u8]) -> Written
    ensures { wrote_of out.new result ≡ trace_to_columns trace.now out.old }
{
    match try_columns(trace, out) {
        Ok(written) => written,
        Err(refusal) => Written::from(refusal),
    }
}

fn try_trace(columns: &[u8], out: &mut [u8]) -> Result<Written, Refusal>
    ensures { wrote_of out.new (settled refused_writing result) ≡ columns_to_trace columns.now out.old }
{
    let size = scan_columns(columns).ok_or(Refusal::NotColumns)?;
    if out.len() < columns.len() - COLUMNS_HEAD {
        return Err(Refusal::BufferTooShort);
    }
    write_trace(columns, size.records, size.messages, out);
    Ok(Written {
        number: 0,
        bytes: (columns.len() - COLUMNS_HEAD) as u64,
    })
}

pub fn columns_to_trace(columns: &[u8], out: &mut [u8]) -> Written
    ensures { wrote_of out.new result ≡ columns_to_trace columns.now out.old }
{
    match try_trace(columns, out) {
        Ok(written) => written,
        Err(refusal) => Written::from(refusal),
    }
}

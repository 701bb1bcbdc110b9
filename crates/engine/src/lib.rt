// The engine's calls. Each has its whole outcome, numbers and the whole content of each lent buffer, as an equality with the
// definitions, for all inputs.
#![tactic(auto)]

ghost use Rattle.std.specs.Prelude.{◌≡◌};
ghost use Rattle.definition.specs.Pinned.Decoder.{check_model};
ghost use Rattle.definition.specs.Pinned.TraceReader.{trace_to_columns, columns_to_trace};
ghost use Rattle.definition.specs.Engine.{start, advance, reading};
ghost use Rattle.definition.specs.FeedCall.{advance_feed};
ghost use Rattle.definition.specs.Channels.{advance_channels};
ghost use Rattle.definition.specs.Flatten.{flatten};
ghost use Rattle.call_answers.specs.Answers.{wrote_of, advanced_of, fed_of, channels_call_of, channelled_of, read_of};

use call_answers::{Advanced, Channels, Fed, Places, Reading, Written};

// The number by which a model file is refused, or 0.
pub fn check_model(file: &[u8]) -> u64
    ensures { result ≡ check_model file.now }
{
    accept_routes::check_model(file)
}

// Writes the first run of a model at the front of the run buffer.
pub fn start(file: &[u8], run: &mut [u8]) -> Written
    ensures { wrote_of run.new result ≡ start file.now run.old }
{
    call_start::start(file, run)
}

// Does every instant due before t, then t with the bag.
pub fn advance(
    file: &[u8],
    run: &mut [u8],
    t: u64,
    bag: &[u8],
    trace: &mut [u8],
    table: &mut [u8],
) -> Advanced
    ensures { advanced_of run.new trace.new table.new result
        ≡ advance file.now run.old t bag.now trace.old table.old }
{
    call_advance::advance(file, run, t, bag, trace, table)
}

// Makes the advance calls of a feed in turn, then one to the end if it lies past the last bag or there is none.
pub fn advance_feed(file: &[u8], run: &mut [u8], end: u64, feed: &[u8], trace: &mut [u8]) -> Fed
    ensures { fed_of run.new trace.new result
        ≡ advance_feed file.now run.old end feed.now trace.old }
{
    call_feed::advance_feed(file, run, end, feed, trace)
}

// Advances one to eight runs in equal parts of one buffer, each with its own bag, to one moment under an allowance of steps.
pub fn advance_channels(
    file: &[u8],
    runs: &mut [u8],
    count: u64,
    t: u64,
    allowance: u64,
    bags: &[u8],
    places: Places,
    traces: &mut [u8],
) -> Channels
    ensures { channelled_of runs.new traces.new result
        ≡ advance_channels file.now runs.old
        (channels_call_of count t allowance bags.now places traces.old) }
{
    call_channels::advance_channels(file, runs, count, t, allowance, bags, places, traces)
}

// Reads the atomic at a position of a run, and when something is due next.
pub fn read(file: &[u8], run: &[u8], position: u64) -> Reading
    ensures { read_of result ≡ reading file.now run.now position }
{
    call_read::read(file, run, position)
}

// Writes the flat form of a model at the front of the buffer.
pub fn flatten(file: &[u8], out: &mut [u8]) -> Written
    ensures { wrote_of out.new result ≡ flatten file.now out.old }
{
    call_flatten::flatten(file, out)
}

// Writes a trace by columns at the front of the buffer.
pub fn trace_to_columns(trace: &[u8], out: &mut [u8]) -> Written
    ensures { wrote_of out.new result ≡ trace_to_columns trace.now out.old }
{
    call_columns::trace_to_columns(trace, out)
}

// Writes the trace of columns at the front of the buffer.
pub fn columns_to_trace(columns: &[u8], out: &mut [u8]) -> Written
    ensures { wrote_of out.new result ≡ columns_to_trace columns.now out.old }
{
    call_columns::columns_to_trace(columns, out)
}

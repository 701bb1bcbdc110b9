// The engine's calls for C, under the names of include/pdevs.h; each promises what the engine's own call promises.
// A slice stands for a pointer and a length.
#![tactic(auto)]

ghost use Rattle.std.specs.Prelude.{◌≡◌};
ghost use Rattle.call_answers.specs.Answers.{wrote_of, advanced_of, fed_of, channels_call_of, channelled_of, read_of};
ghost use Rattle.definition.specs.Pinned.Decoder.{check_model};
ghost use Rattle.definition.specs.Pinned.TraceReader.{trace_to_columns, columns_to_trace};
ghost use Rattle.definition.specs.Engine.{start, advance, reading};
ghost use Rattle.definition.specs.FeedCall.{advance_feed};
ghost use Rattle.definition.specs.Channels.{advance_channels};
ghost use Rattle.definition.specs.Flatten.{flatten};

use call_answers::{Advanced, Channels, Fed, Places, Reading, Written};

#[unsafe(no_mangle)]
pub extern "C" fn pdevs_check_model(model: &[u8]) -> u64
    ensures { result ≡ check_model model.now }
{
    engine::check_model(model)
}

#[unsafe(no_mangle)]
pub extern "C" fn pdevs_start(model: &[u8], run: &mut [u8]) -> Written
    ensures { wrote_of run.new result ≡ start model.now run.old }
{
    engine::start(model, run)
}

#[unsafe(no_mangle)]
pub extern "C" fn pdevs_advance(
    model: &[u8],
    run: &mut [u8],
    t: u64,
    bag: &[u8],
    trace: &mut [u8],
    table: &mut [u8],
) -> Advanced
    ensures { advanced_of run.new trace.new table.new result
        ≡ advance model.now run.old t bag.now trace.old table.old }
{
    engine::advance(model, run, t, bag, trace, table)
}

#[unsafe(no_mangle)]
pub extern "C" fn pdevs_advance_feed(
    model: &[u8],
    run: &mut [u8],
    end: u64,
    feed: &[u8],
    trace: &mut [u8],
) -> Fed
    ensures { fed_of run.new trace.new result
        ≡ advance_feed model.now run.old end feed.now trace.old }
{
    engine::advance_feed(model, run, end, feed, trace)
}

#[unsafe(no_mangle)]
pub extern "C" fn pdevs_advance_channels(
    model: &[u8],
    runs: &mut [u8],
    count: u64,
    t: u64,
    allowance: u64,
    bags: &[u8],
    places: Places,
    traces: &mut [u8],
) -> Channels
    ensures { channelled_of runs.new traces.new result
        ≡ advance_channels model.now runs.old
        (channels_call_of count t allowance bags.now places traces.old) }
{
    engine::advance_channels(model, runs, count, t, allowance, bags, places, traces)
}

#[unsafe(no_mangle)]
pub extern "C" fn pdevs_read(model: &[u8], run: &[u8], position: u64) -> Reading
    ensures { read_of result ≡ reading model.now run.now position }
{
    engine::read(model, run, position)
}

#[unsafe(no_mangle)]
pub extern "C" fn pdevs_flatten(model: &[u8], out: &mut [u8]) -> Written
    ensures { wrote_of out.new result ≡ flatten model.now out.old }
{
    engine::flatten(model, out)
}

#[unsafe(no_mangle)]
pub extern "C" fn pdevs_trace_to_columns(trace: &[u8], out: &mut [u8]) -> Written
    ensures { wrote_of out.new result ≡ trace_to_columns trace.now out.old }
{
    engine::trace_to_columns(trace, out)
}

#[unsafe(no_mangle)]
pub extern "C" fn pdevs_columns_to_trace(columns: &[u8], out: &mut [u8]) -> Written
    ensures { wrote_of out.new result ≡ columns_to_trace columns.now out.old }
{
    engine::columns_to_trace(columns, out)
}

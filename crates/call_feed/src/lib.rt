// The call that runs a feed, whole: the check of the model, the checks of run, feed and times, and the feed's calls. The model is checked once,
// and its tables are filled once, for all of them.
#![tactic(auto)]

ghost use Rattle.std.specs.Prelude.{◌≡◌, length};
ghost use Rattle.definition.specs.Bytes.{ok};
ghost use Rattle.definition.specs.Pinned.Decoder.{accepted};
ghost use Rattle.definition.specs.Feed.{first_moment};
ghost use Rattle.definition.specs.FeedCall.{feed_checks, advance_feed};
ghost use Rattle.model_file.specs.Checked.{model_of};
ghost use Rattle.refusals.specs.Refusals.{settled};
ghost use Rattle.call_answers.specs.Answers.{fed_of};
ghost use Rattle.call_answers.specs.Refused.{refused_feed};
ghost use Rattle.feed_bags.specs.Bags.{bags_told};
ghost use Rattle.feed_loop.specs.Onwards.{bags_in};
ghost use Rattle.call_advance.specs.LetIn.{ModelOpened, Roomy};
ghost use Rattle.call_feed.specs.FeedLetIn.{Counted, checked_by, FeedLetIn};

use accept_routes::Accepted;
use call_answers::Fed;
use call_run::run_fits;
use clock::Moment;
use feed_bags::{Bags, find_bags, moment_of};
use feed_loop::feed_from;
use limits::{COUNT_SIZE, FEW_ROUTES, FEW_WORDS, MAX_MOMENT, MOST_WORDS};
use little_endian::rest;
use model_file::Counts;
use refusals::Refusal;
use run_state::STATE_SIZE;
use table_words::{TABLE_SIZE, atomics_in};

// The calls of a feed that the checks let through, on the tables of the model, with a buffer that has room for its routes.
fn feed_let_in(
    file: &[u8],
    n: Counts,
    tables: &[u16; TABLE_SIZE],
    run: &mut [u8],
    end: Moment,
    feed: &[u8],
    found: Bags,
    trace: &mut [u8],
    work: &mut [u32],
) -> Fed
    requires { FeedLetIn file.now n tables.now run.old end.0 feed.now found × Roomy file.now n (length work.old) }
    ensures { fed_of run.new trace.new result
        ≡ advance_feed file.now run.old end.0 feed.now trace.old }
{
    let mut state = [0u64; STATE_SIZE];
    run_saved::load(run, atomics_in(tables) as usize, &mut state);
    let phases = model_file::phases_of(file, n);
    let rules = model_file::rules_of(file, n);
    feed_from(
        phases, rules, tables, run, &mut state, end, feed, found, work, trace,
    )
}

// The same with a buffer of so many words for bags: a short call does not pay for filling a large one with zeros.
fn feed_in<const WORDS: usize>(
    file: &[u8],
    n: Counts,
    tables: &[u16; TABLE_SIZE],
    run: &mut [u8],
    end: Moment,
    feed: &[u8],
    found: Bags,
    trace: &mut [u8],
) -> Fed
    requires { FeedLetIn file.now n tables.now run.old end.0 feed.now found × Roomy file.now n WORDS }
    ensures { fed_of run.new trace.new result
        ≡ advance_feed file.now run.old end.0 feed.now trace.old }
{
    let mut work = [0u32; WORDS];
    feed_let_in(file, n, tables, run, end, feed, found, trace, &mut work)
}

// The moment of the first call: with no bag it is the one to the end.
fn first_moment(feed: &[u8], count: u16, end: u64) -> u64
    requires { Counted feed.now count }
    ensures { result ≡ first_moment (bags_in feed.now) end }
{
    if count == 0 {
        end
    } else {
        moment_of(rest(feed, COUNT_SIZE))
    }
}

// The checks of run, feed and times, in this order; the bags of a feed that is let in.
fn check_feed(file: &[u8], n: Counts, run: &[u8], end: u64, feed: &[u8]) -> Result<Bags, Refusal>
    requires { ok (model_of file.now n) ≡ accepted file.now }
    ensures { checked_by result ≡ bags_told (feed_checks (model_of file.now n) run.now end feed.now) }
{
    if !run_fits(file, n, run) {
        return Err(Refusal::RunDoesNotFit);
    }
    let found = find_bags(feed).ok_or(Refusal::BadFeed)?;
    let first = first_moment(feed, found.count, end);
    let opening = run_saved::opening_of(run);
    if (end < found.last) | (MAX_MOMENT < end) | (first < opening.0) {
        return Err(Refusal::BadMoment);
    }
    Ok(found)
}

// The feed on an accepted model.
fn feed_accepted(
    file: &[u8],
    accepted: Accepted,
    tables: &[u16; TABLE_SIZE],
    run: &mut [u8],
    end: u64,
    feed: &[u8],
    trace: &mut [u8],
) -> Result<Fed, Refusal>
    requires { ModelOpened file.now accepted.counts tables.now accepted.routes }
    ensures { fed_of run.new trace.new (settled refused_feed result)
        ≡ advance_feed file.now run.old end feed.now trace.old }
{
    let n = accepted.counts;
    let found = check_feed(file, n, run, end, feed)?;
    let end = Moment(end);
    if accepted.routes <= FEW_ROUTES {
        Ok(feed_in::<FEW_WORDS>(file, n, tables, run, end, feed, found, trace))
    } else {
        Ok(feed_in::<MOST_WORDS>(file, n, tables, run, end, feed, found, trace))
    }
}

fn try_feed(
    file: &[u8],
    run: &mut [u8],
    end: u64,
    feed: &[u8],
    trace: &mut [u8],
) -> Result<Fed, Refusal>
    ensures { fed_of run.new trace.new (settled refused_feed result)
        ≡ advance_feed file.now run.old end feed.now trace.old }
{
    let mut tables = [0u16; TABLE_SIZE];
    let accepted = accept_tables::open_model(file, &mut tables)?;
    feed_accepted(file, accepted, &tables, run, end, feed, trace)
}

pub fn advance_feed(file: &[u8], run: &mut [u8], end: u64, feed: &[u8], trace: &mut [u8]) -> Fed
    ensures { fed_of run.new trace.new result
        ≡ advance_feed file.now run.old end feed.now trace.old }
{
    match try_feed(file, run, end, feed, trace) {
        Ok(answer) => answer,
        Err(refusal) => Fed::from(refusal),
    }
}

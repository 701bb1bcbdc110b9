// A feed, behind its checks: its bags' calls in turn and the one to the end, on one loaded state and one trace. The model's tables are filled,
// and the run is loaded and stored, once for all calls.
#![tactic(auto)]

ghost use Rattle.std.specs.Prelude.{◌≡◌, length};
ghost use Rattle.run_state.specs.Held.{held_in};
ghost use Rattle.call_answers.specs.Answers.{fed_of};
ghost use Rattle.feed_loop.specs.Onwards.{CanFeed, CanEnd, Startable, EndedOn, MayGoOn, bags_of, end_of, feed_answer_of, fed_by};

use call_answers::{Advanced, Fed};
use clock::Moment;
use feed_bags::{Bags, bag_of, length_of, moment_of};
use instant_attempt::Progress;
use instant_loop::{Ended, advance_on};
use limits::COUNT_SIZE;
use little_endian::rest;
use run_state::STATE_SIZE;
use table_words::{TABLE_SIZE, atomics_in};

// How many bags' own calls succeeded, and where the last call ended.
#[derive(Clone, Copy)]
pub struct Onward {
    pub bags: u64,
    pub ended: Ended,
}

impl From<Onward> for Fed {
    ghost from_gives = { λ onward answer. answer ≡ feed_answer_of onward };

    fn from(onward: Onward) -> Fed {
        let own = Advanced::from(onward.ended);
        Fed {
            number: own.number,
            bags: onward.bags,
            instants: own.instants,
            steps: own.steps,
            trace_bytes: own.trace_bytes,
        }
    }
}

// The bags' own calls in turn; the first that is refused stops them.
fn advance_bags(
    phases: &[u8],
    rules: &[u8],
    tables: &[u16; TABLE_SIZE],
    feed: &[u8],
    count: u16,
    from: Progress,
    state: &mut [u64; STATE_SIZE],
    work: &mut [u32],
    trace: &mut [u8],
) -> Onward
    requires { CanFeed phases.now tables.now feed.now count from state.old (length work.old) (length trace.old) }
    ensures { MayGoOn phases.now tables.now count trace.old trace.new state.new result
        (bags_of phases.now rules.now tables.now (length work.old) feed.now trace.old
        state.old from) }
{
    let mut at = COUNT_SIZE;
    let mut bags: u64 = 0;
    let mut p = from;
    for _ in 0..count {
        let here = rest(feed, at);
        let t = Moment(moment_of(here));
        let ended = advance_on(
            phases,
            rules,
            tables,
            t,
            bag_of(here),
            p,
            state,
            work,
            trace,
        );
        if ended.refusal.is_some() {
            return Onward { bags, ended };
        }
        p = ended.progress;
        bags += 1;
        at += length_of(here);
    }
    let ended = Ended {
        refusal: None,
        progress: p,
    };
    Onward { bags, ended }
}

// "plus an empty-bag advance to the end if it lies past the last bag or there is none". `feed` lends the empty bag.
fn advance_to_end(
    phases: &[u8],
    rules: &[u8],
    tables: &[u16; TABLE_SIZE],
    end: Moment,
    past: bool,
    feed: &[u8],
    own: Onward,
    state: &mut [u64; STATE_SIZE],
    work: &mut [u32],
    trace: &mut [u8],
) -> Onward
    requires { CanEnd phases.now tables.now end.0 own state.old (length work.old) (length trace.old) }
    ensures { EndedOn tables.now trace.old trace.new state.new own result
        (end_of phases.now rules.now tables.now (length work.old) end.0 past trace.old
        state.old own) }
{
    if own.ended.refusal.is_some() | !past {
        return own;
    }
    let from = own.ended.progress;
    let ended = advance_on(
        phases,
        rules,
        tables,
        end,
        &feed[..0],
        from,
        state,
        work,
        trace,
    );
    Onward {
        bags: own.bags,
        ended,
    }
}

// The feed from a loaded state: what stands is written into the run buffer, the records are at the front of the trace.
pub fn feed_from(
    phases: &[u8],
    rules: &[u8],
    tables: &[u16; TABLE_SIZE],
    run: &mut [u8],
    state: &mut [u64; STATE_SIZE],
    end: Moment,
    feed: &[u8],
    found: Bags,
    work: &mut [u32],
    trace: &mut [u8],
) -> Fed
    requires { Startable tables.now end.0 feed.now found (length work.old) (length run.old) }
    ensures { fed_of run.new trace.new result
        ≡ fed_by phases.now rules.now tables.now (length work.old) end.0 feed.now
        run.old (held_in state.old) trace.old }
{
    let from = Progress {
        opening: run_saved::opening_of(run),
        instants: 0,
        steps: 0,
        used: 0,
    };
    instant_steps::make_ready(phases, tables, state);
    let own = advance_bags(
        phases,
        rules,
        tables,
        feed,
        found.count,
        from,
        state,
        work,
        trace,
    );
    let past = (found.count == 0) | (found.last < end.0);
    let whole = advance_to_end(
        phases, rules, tables, end, past, feed, own, state, work, trace,
    );
    let done = whole.ended.progress;
    run_saved::store(run, done.opening, atomics_in(tables) as usize, state);
    Fed::from(whole)
}

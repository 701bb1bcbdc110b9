// A channel's turn: the checks of its run, time and bag, and its instants with the steps that it has. The model's tables and the buffer for bags are
// lent from outside, once for all channels.
#![tactic(auto)]

ghost use Rattle.std.specs.Prelude.{◌≡◌, [], length};
ghost use Rattle.definition.specs.Bytes.{ok};
ghost use Rattle.definition.specs.Pinned.Decoder.{accepted};
ghost use Rattle.definition.specs.Channels.{bag_at, turn};
ghost use Rattle.model_file.specs.Checked.{model_of};
ghost use Rattle.call_answers.specs.Answers.{advanced_of, place_of};
ghost use Rattle.call_advance.specs.LetIn.{checked_by, LetIn, Roomy};
ghost use Rattle.channel_turn.specs.Turns.{ModelLent, inside_of, bag_lent, turn_rows, turned_from};

use call_answers::{Advanced, Place};
use call_run::run_fits;
use clock::Moment;
use instant_loop::turn_from;
use limits::MAX_MOMENT;
use model_file::Counts;
use refusals::Refusal;
use run_state::STATE_SIZE;
use table_words::{TABLE_SIZE, atomics_in};

// The place does not run past the end of a buffer of so many bytes. No sum that could overflow is made.
fn lies_inside(size: u64, place: Place) -> bool
    ensures { result ≡ inside_of size place }
{
    if size < place.start {
        return false;
    }
    place.size <= size - place.start
}

// The bag at a place inside; an empty one otherwise, with which the checks before it can be made.
fn bag_lent<'a>(bags: &'a [u8], place: Place, inside: bool) -> &'a [u8]
    requires { inside ≡ inside_of (length bags.now) place }
    ensures { result.now ≡ bag_lent bags.now place inside }
{
    if !inside {
        return &bags[..0];
    }
    let start = place.start as usize;
    let size = place.size as usize;
    &bags[start..start + size]
}

// The checks of run, time and bag, in this order. An advance has checks of its own: what two calls share is not inlined, and three short calls took
// 1.09 to 1.12 of their time (docs/PERFORMANCE.md).
fn check_turn(
    file: &[u8],
    n: Counts,
    run: &[u8],
    t: u64,
    inside: bool,
    bag: &[u8],
) -> Result<(), Refusal>
    requires { ok (model_of file.now n) ≡ accepted file.now }
    ensures { checked_by result ≡ turn_rows (model_of file.now n) run.now t inside bag.now }
{
    if !run_fits(file, n, run) {
        return Err(Refusal::RunDoesNotFit);
    }
    let opening = run_saved::opening_of(run);
    if (t < opening.0) | (MAX_MOMENT < t) {
        return Err(Refusal::BadMoment);
    }
    if !(inside & call_bag::bag_fits(bag)) {
        return Err(Refusal::BadBag);
    }
    Ok(())
}

// The instants of a turn that the checks let in.
fn turn_let_in(
    file: &[u8],
    n: Counts,
    tables: &[u16; TABLE_SIZE],
    run: &mut [u8],
    t: Moment,
    bag: &[u8],
    has: u64,
    trace: &mut [u8],
    work: &mut [u32],
) -> Advanced
    requires { LetIn file.now n tables.now run.old t.0 bag.now × Roomy file.now n (length work.old) }
    ensures { advanced_of run.new trace.new [] result
        ≡ turned_from (model_of file.now n) t.0 has run.old bag.now trace.old }
{
    let mut state = [0u64; STATE_SIZE];
    run_saved::load(run, atomics_in(tables) as usize, &mut state);
    let phases = model_file::phases_of(file, n);
    let rules = model_file::rules_of(file, n);
    turn_from(
        phases, rules, tables, run, &mut state, t, bag, has, work, trace,
    )
}

pub fn turn(
    file: &[u8],
    n: Counts,
    tables: &[u16; TABLE_SIZE],
    run: &mut [u8],
    t: u64,
    bags: &[u8],
    place: Place,
    has: u64,
    trace: &mut [u8],
    work: &mut [u32],
) -> Advanced
    requires { ModelLent file.now n tables.now (length work.old) }
    ensures { advanced_of run.exit.now trace.new [] result
        ≡ turn (model_of file.now n) t has
        (record { run = run.entry.now; trace = trace.old; bag = bag_at bags.now (place_of place) }) }
{
    let inside = lies_inside(bags.len() as u64, place);
    let bag = bag_lent(bags, place, inside);
    if let Err(refusal) = check_turn(file, n, run, t, inside, bag) {
        return Advanced::from(refusal);
    }
    turn_let_in(file, n, tables, run, Moment(t), bag, has, trace, work)
}

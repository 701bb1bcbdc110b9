// The call advance, whole: the check of the model, the checks of run, time and bag, the instants, and the table of deciding rules. The instants
// know nothing of the table: a call without one has them alone.
#![tactic(auto)]

ghost use Rattle.std.specs.Prelude.{◌≡◌, length};
ghost use Rattle.definition.specs.Bytes.{ok};
ghost use Rattle.definition.specs.Pinned.Decoder.{accepted};
ghost use Rattle.definition.specs.Engine.{advance_checks, advance};
ghost use Rattle.model_file.specs.Checked.{model_of};
ghost use Rattle.refusals.specs.Refusals.{settled};
ghost use Rattle.call_answers.specs.Answers.{advanced_of};
ghost use Rattle.call_answers.specs.Refused.{refused_advance};
ghost use Rattle.call_advance.specs.LetIn.{ModelOpened, checked_by, LetIn, Roomy};

use accept_routes::Accepted;
use call_answers::Advanced;
use call_rules::put_rules;
use call_run::run_fits;
use clock::Moment;
use instant_loop::advance_from;
use limits::{FEW_ROUTES, FEW_WORDS, MAX_MOMENT, MOST_WORDS};
use model_file::Counts;
use refusals::Refusal;
use run_state::STATE_SIZE;
use table_words::{TABLE_SIZE, atomics_in};

// The instants of a call that the checks let through, on the tables of the model, with a buffer that has room for its routes.
fn advance_let_in(
    file: &[u8],
    n: Counts,
    tables: &[u16; TABLE_SIZE],
    run: &mut [u8],
    t: Moment,
    bag: &[u8],
    trace: &mut [u8],
    table: &mut [u8],
    work: &mut [u32],
) -> Advanced
    requires { LetIn file.now n tables.now run.old t.0 bag.now × Roomy file.now n (length work.old) }
    ensures { advanced_of run.new trace.new table.new result
        ≡ advance file.now run.old t.0 bag.now trace.old table.old }
{
    let mut state = [0u64; STATE_SIZE];
    run_saved::load(run, atomics_in(tables) as usize, &mut state);
    let phases = model_file::phases_of(file, n);
    let rules = model_file::rules_of(file, n);
    let answer = advance_from(phases, rules, tables, run, &mut state, t, bag, work, trace);
    put_rules(tables, &state, answer.instants, table);
    answer
}

// The same with a buffer of so many words for bags: a short call does not pay for filling a large one with zeros.
fn advance_in<const WORDS: usize>(
    file: &[u8],
    n: Counts,
    tables: &[u16; TABLE_SIZE],
    run: &mut [u8],
    t: Moment,
    bag: &[u8],
    trace: &mut [u8],
    table: &mut [u8],
) -> Advanced
    requires { LetIn file.now n tables.now run.old t.0 bag.now × Roomy file.now n WORDS }
    ensures { advanced_of run.new trace.new table.new result
        ≡ advance file.now run.old t.0 bag.now trace.old table.old }
{
    let mut work = [0u32; WORDS];
    advance_let_in(file, n, tables, run, t, bag, trace, table, &mut work)
}

// The checks of run, time and bag, in this order.
fn check_call(file: &[u8], n: Counts, run: &[u8], t: u64, bag: &[u8]) -> Result<(), Refusal>
    requires { ok (model_of file.now n) ≡ accepted file.now }
    ensures { checked_by result ≡ advance_checks (model_of file.now n) run.now t bag.now }
{
    if !run_fits(file, n, run) {
        return Err(Refusal::RunDoesNotFit);
    }
    let opening = run_saved::opening_of(run);
    if (t < opening.0) | (MAX_MOMENT < t) {
        return Err(Refusal::BadMoment);
    }
    if !call_bag::bag_fits(bag) {
        return Err(Refusal::BadBag);
    }
    Ok(())
}

// The call on an accepted model.
fn advance_accepted(
    file: &[u8],
    accepted: Accepted,
    tables: &[u16; TABLE_SIZE],
    run: &mut [u8],
    t: u64,
    bag: &[u8],
    trace: &mut [u8],
    table: &mut [u8],
) -> Result<Advanced, Refusal>
    requires { ModelOpened file.now accepted.counts tables.now accepted.routes }
    ensures { advanced_of run.new trace.new table.new (settled refused_advance result)
        ≡ advance file.now run.old t bag.now trace.old table.old }
{
    let n = accepted.counts;
    check_call(file, n, run, t, bag)?;
    let t = Moment(t);
    if accepted.routes <= FEW_ROUTES {
        Ok(advance_in::<FEW_WORDS>(file, n, tables, run, t, bag, trace, table))
    } else {
        Ok(advance_in::<MOST_WORDS>(file, n, tables, run, t, bag, trace, table))
    }
}

fn try_advance(
    file: &[u8],
    run: &mut [u8],
    t: u64,
    bag: &[u8],
    trace: &mut [u8],
    table: &mut [u8],
) -> Result<Advanced, Refusal>
    ensures { advanced_of run.new trace.new table.new (settled refused_advance result)
        ≡ advance file.now run.old t bag.now trace.old table.old }
{
    let mut tables = [0u16; TABLE_SIZE];
    let accepted = accept_tables::open_model(file, &mut tables)?;
    advance_accepted(file, accepted, &tables, run, t, bag, trace, table)
}

pub fn advance(
    file: &[u8],
    run: &mut [u8],
    t: u64,
    bag: &[u8],
    trace: &mut [u8],
    table: &mut [u8],
) -> Advanced
    ensures { advanced_of run.new trace.new table.new result
        ≡ advance file.now run.old t bag.now trace.old table.old }
{
    match try_advance(file, run, t, bag, trace, table) {
        Ok(answer) => answer,
        Err(refusal) => Advanced::from(refusal),
    }
}

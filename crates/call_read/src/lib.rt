// The call read, whole: the check of the model, the checks of run and position, and what stands at the position.
#![tactic(auto)]

ghost use Rattle.std.specs.Prelude.{◌≡◌};
ghost use Rattle.definition.specs.SavedRun.{run_of, next_due};
ghost use Rattle.definition.specs.Engine.{due_number, reading};
ghost use Rattle.model_file.specs.Checked.{model_of};
ghost use Rattle.refusals.specs.Refusals.{settled};
ghost use Rattle.call_answers.specs.Answers.{read_of};
ghost use Rattle.call_answers.specs.Refused.{refused_reading};
ghost use Rattle.call_read.specs.Opened.{ModelOpened, RunOpened};

use accept_routes::Accepted;
use call_answers::Reading;
use call_run::run_fits;
use clock::Moment;
use model_file::Counts;
use refusals::Refusal;
use run_state::STATE_SIZE;
use table_words::TABLE_SIZE;

// The next due moment of the whole model as a number, for a run that fits.
fn whole_due(file: &[u8], n: Counts, tables: &[u16; TABLE_SIZE], run: &[u8]) -> u64
    requires { RunOpened file.now n tables.now run.now }
    ensures { result ≡ due_number (next_due (model_of file.now n) (run_of (model_of file.now n) run.now).entries) }
{
    let count = table_words::atomics_in(tables);
    let mut state = [0u64; STATE_SIZE];
    run_saved::load(run, count as usize, &mut state);
    let phases = model_file::phases_of(file, n);
    step_due::put_ends(phases, tables, count, &mut state);
    step_due::next_end(tables, &state)
}

// The checks of run and position, and the answer, for an accepted model.
fn read_accepted(
    file: &[u8],
    n: Counts,
    tables: &[u16; TABLE_SIZE],
    run: &[u8],
    position: u64,
) -> Result<Reading, Refusal>
    requires { ModelOpened file.now n tables.now }
    ensures { read_of (settled refused_reading result) ≡ reading file.now run.now position }
{
    if !run_fits(file, n, run) {
        return Err(Refusal::RunDoesNotFit);
    }
    let count = table_words::atomics_in(tables) as u64;
    if count <= position {
        return Err(Refusal::BadPosition);
    }
    let entry = run_saved::entry_at(run, position as usize);
    let last: Moment = entry.last;
    Ok(Reading {
        number: 0,
        phase: entry.phase as u64,
        last: last.0,
        next_due: whole_due(file, n, tables, run),
    })
}

fn try_read(file: &[u8], run: &[u8], position: u64) -> Result<Reading, Refusal>
    ensures { read_of (settled refused_reading result) ≡ reading file.now run.now position }
{
    let mut tables = [0u16; TABLE_SIZE];
    let accepted: Accepted = accept_tables::open_model(file, &mut tables)?;
    read_accepted(file, accepted.counts, &tables, run, position)
}

pub fn read(file: &[u8], run: &[u8], position: u64) -> Reading
    ensures { read_of result ≡ reading file.now run.now position }
{
    match try_read(file, run, position) {
        Ok(reading) => reading,
        Err(refusal) => Reading::from(refusal),
    }
}

// The call start, whole: the check of the model, the room, and the first run at the front of the lent buffer.
#![tactic(auto)]

ghost use Rattle.std.specs.Prelude.{◌≡◌, ◌≤◌, [], length};
ghost use Rattle.definition.specs.Bytes.{ok};
ghost use Rattle.definition.specs.Limits.{max_components};
ghost use Rattle.definition.specs.SavedRun.{run_bytes};
ghost use Rattle.definition.specs.Engine.{wrote, start_run, start};
ghost use Rattle.model_records.specs.Values.{components_in};
ghost use Rattle.run_saved.specs.Runs.{bare};
ghost use Rattle.refusals.specs.Refusals.{settled};
ghost use Rattle.call_answers.specs.Answers.{wrote_of};
ghost use Rattle.call_answers.specs.Refused.{refused_writing};

use call_answers::Written;
use clock::Moment;
use refusals::Refusal;
use run_saved::run_size;
use run_state::STATE_SIZE;

// The run of a start, where there is room for it.
fn start_run(components: &[u8], run: &mut [u8]) -> Result<Written, Refusal>
    requires { length (components_in components.now) ≤ max_components }
    ensures { wrote_of run.new (settled refused_writing result) ≡ wrote run.old (ok (run_bytes (start_run (bare components.now [])))) }
{
    let n = model_records::atomic_count(components);
    let size = run_size(n);
    if run.len() < size {
        return Err(Refusal::BufferTooShort);
    }
    let mut state = [0u64; STATE_SIZE];
    run_saved::start_state(components, &mut state);
    run_saved::store(run, Moment(0), n, &state);
    Ok(Written {
        number: 0,
        bytes: size as u64,
    })
}

fn try_start(file: &[u8], run: &mut [u8]) -> Result<Written, Refusal>
    ensures { wrote_of run.new (settled refused_writing result) ≡ start file.now run.old }
{
    let counts = accept_routes::check(file)?;
    start_run(model_file::components_of(file, counts), run)
}

// Start: the first run of a model, at the front of the buffer; the bytes beyond it stay.
pub fn start(file: &[u8], run: &mut [u8]) -> Written
    ensures { wrote_of run.new result ≡ start file.now run.old }
{
    match try_start(file, run) {
        Ok(written) => written,
        Err(refusal) => Written::from(refusal),
    }
}

// The saved run of a call, against the model of its file: 10, which every call asks that takes a run.
#![tactic(auto)]

ghost use Rattle.std.specs.Prelude.{◌≡◌};
ghost use Rattle.definition.specs.Bytes.{ok};
ghost use Rattle.definition.specs.Pinned.Decoder.{accepted};
ghost use Rattle.definition.specs.SavedRun.{run_fits};
ghost use Rattle.model_file.specs.Checked.{model_of};

use model_file::Counts;

// "10 too short or does not fit"
pub fn run_fits(file: &[u8], n: Counts, run: &[u8]) -> bool
    requires { ok (model_of file.now n) ≡ accepted file.now }
    ensures { result ≡ run_fits (model_of file.now n) run.now }
{
    let components = model_file::components_of(file, n);
    run_saved::fits(components, model_file::phases_of(file, n), run)
}

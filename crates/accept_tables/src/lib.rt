// A model file opened for a call: the whole check, and where it is accepted the tables of its model.
#![tactic(auto)]

ghost use Rattle.std.specs.Prelude.{◌≡◌};
ghost use Rattle.definition.specs.Bytes.{ok};
ghost use Rattle.definition.specs.Pinned.Decoder.{accepted};
ghost use Rattle.model_file.specs.Checked.{model_of};
ghost use Rattle.table_couplings.specs.Links.{zeros};
ghost use Rattle.accept_routes.specs.Routed.{accepted_as, Routed, Linked};
ghost use Rattle.spec_step.specs.TablesOf.{TablesOf};
ghost use Rattle.accept_tables.specs.Opened.{Opened};

use accept_routes::Accepted;
use model_file::Counts;
use refusals::Refusal;
use table_words::{LINKS, TABLE_SIZE};

// The other tables, where the words of the links stand.
fn fill(file: &[u8], n: Counts, targets: &[u16; LINKS], tables: &mut [u16; TABLE_SIZE])
    requires { (ok (model_of file.now n) ≡ accepted file.now) × Linked file.now n targets.now tables.old }
    ensures { TablesOf (model_of file.now n) tables.new }
{
    table_fill::fill_tables(
        model_file::components_of(file, n),
        model_file::rules_of(file, n),
        model_file::couplings_of(file, n),
        n.half_open,
        targets,
        tables,
    );
}

// The tables are lent as zeros.
pub fn open_model(file: &[u8], tables: &mut [u16; TABLE_SIZE]) -> Result<Accepted, Refusal>
    requires { tables.old ≡ zeros }
    ensures { (accepted_as file.now result ≡ accepted file.now) × Routed file.now result × Opened file.now result tables.new }
{
    let mut targets = [0u16; LINKS];
    let accepted = accept_routes::check_routes(file, tables, &mut targets)?;
    fill(file, accepted.counts, &targets, tables);
    Ok(accepted)
}

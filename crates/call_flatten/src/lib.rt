// The call flatten, whole: the check of the model, its tables, the rows of the flat form, the room, and then the bytes.
#![tactic(auto)]

ghost use Rattle.std.specs.Prelude.{◌≡◌, length};
ghost use Rattle.definition.specs.Flatten.{flatten};
ghost use Rattle.refusals.specs.Refusals.{settled};
ghost use Rattle.call_answers.specs.Answers.{wrote_of};
ghost use Rattle.call_answers.specs.Refused.{refused_writing};
ghost use Rattle.call_flatten.specs.Found.{CanFlatten, FlatFound};

use accept_routes::Accepted;
use call_answers::Written;
use model_file::Counts;
use refusals::Refusal;
use table_words::TABLE_SIZE;

// A flat form has at most as many rows as a model may have routes.
const MAX_ROWS: usize = 1024;

// Room for them, and behind them for half as many: their sort takes that as its scratch.
const ROW_WORDS: usize = MAX_ROWS + MAX_ROWS / 2;

// What is found of a flat form before it is written: how many rows and how many bytes it has.
#[derive(Clone, Copy)]
struct Found {
    rows: usize,
    size: usize,
}

// The rows of an accepted model's flat form, sorted, at the front of `rows`, and its size.
fn find_flat(file: &[u8], n: Counts, tables: &[u16; TABLE_SIZE], rows: &mut [u32]) -> Found
    requires { CanFlatten file.now n tables.now (length rows.old) }
    ensures { FlatFound file.now n tables.now rows.new result }
{
    let phases = model_file::phases_of(file, n);
    let rules = model_file::rules_of(file, n);
    let atomics = table_words::atomics_in(tables);
    let count = flat_rows::flat_rows(tables, atomics, rows);
    Found {
        rows: count,
        size: flat_writer::flat_size(phases, rules, tables, atomics, count),
    }
}

// The flat form that was found, where there is room for it.
fn write_flat(
    file: &[u8],
    n: Counts,
    tables: &[u16; TABLE_SIZE],
    rows: &[u32],
    found: Found,
    out: &mut [u8],
) -> Result<Written, Refusal>
    requires { FlatFound file.now n tables.now rows.now found }
    ensures { wrote_of out.new (settled refused_writing result) ≡ flatten file.now out.old }
{
    if out.len() < found.size {
        return Err(Refusal::BufferTooShort);
    }
    let components = model_file::components_of(file, n);
    let phases = model_file::phases_of(file, n);
    let rules = model_file::rules_of(file, n);
    let atomics = table_words::atomics_in(tables);
    flat_writer::put_flat(
        components, phases, rules, tables, atomics, rows, found.rows, out,
    );
    Ok(Written {
        number: 0,
        bytes: found.size as u64,
    })
}

fn try_flatten(file: &[u8], out: &mut [u8]) -> Result<Written, Refusal>
    ensures { wrote_of out.new (settled refused_writing result) ≡ flatten file.now out.old }
{
    let mut tables = [0u16; TABLE_SIZE];
    let accepted: Accepted = accept_tables::open_model(file, &mut tables)?;
    let counts = accepted.counts;
    let mut rows: [u32; ROW_WORDS] = [0; ROW_WORDS];
    let found = find_flat(file, counts, &tables, &mut rows);
    write_flat(file, counts, &tables, &rows, found, out)
}

// Flatten: the flat form at the front of the buffer; the bytes beyond it stay.
pub fn flatten(file: &[u8], out: &mut [u8]) -> Written
    ensures { wrote_of out.new result ≡ flatten file.now out.old }
{
    match try_flatten(file, out) {
        Ok(written) => written,
        Err(refusal) => Written::from(refusal),
    }
}

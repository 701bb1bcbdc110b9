// The call that advances several channels, whole: the counts, the check of the model, and the channels in turn. The model is checked once, its tables
// are filled once and the buffer for bags is made once for all of them.
#![tactic(auto)]

ghost use Rattle.std.specs.Prelude.{◌≡◌};
ghost use Rattle.definition.specs.Bytes.{ok};
ghost use Rattle.definition.specs.Channels.{miscounted, advance_channels};
ghost use Rattle.definition.specs.FlatChannels.{boxed};
ghost use Rattle.model_file.specs.Checked.{model_of};
ghost use Rattle.call_answers.specs.Answers.{channels_call_of, channelled_of};
ghost use Rattle.call_advance.specs.LetIn.{Roomy};
ghost use Rattle.channel_loop.specs.InTurn.{all_in_turn};
ghost use Rattle.call_channels.specs.ChannelsLetIn.{ChannelsLetIn, ChannelsOpened};

use accept_routes::Accepted;
use call_answers::{Channels, Places};
use channel_loop::advance_parts;
use limits::{FEW_ROUTES, FEW_WORDS, MAX_CHANNELS, MAX_STEPS, MOST_WORDS};
use model_file::Counts;
use refusals::Refusal;
use table_words::TABLE_SIZE;

// "21 when the number of runs is not 1 to 8 or the allowance is below 1,024 a run"
fn is_miscounted(count: u64, allowance: u64) -> bool
    ensures { result ≡ miscounted count allowance }
{
    if (count == 0) | (MAX_CHANNELS < count) {
        return true;
    }
    allowance < MAX_STEPS * count
}

// The channels in turn, with a buffer of so many words for bags.
fn channels_in<const WORDS: usize>(
    file: &[u8],
    n: Counts,
    tables: &[u16; TABLE_SIZE],
    runs: &mut [u8],
    count: u64,
    t: u64,
    allowance: u64,
    bags: &[u8],
    places: Places,
    traces: &mut [u8],
) -> Channels
    requires { ChannelsLetIn file.now n tables.now count × Roomy file.now n WORDS }
    ensures { channelled_of runs.new traces.new result
        ≡ boxed runs.old traces.old (ok (all_in_turn (model_of file.now n) runs.old
        (channels_call_of count t allowance bags.now places traces.old))) }
{
    let mut work = [0u32; WORDS];
    advance_parts(
        file, n, tables, runs, count, t, allowance, bags, places, traces, &mut work,
    )
}

// The channels on an accepted model.
fn channels_accepted(
    file: &[u8],
    accepted: Accepted,
    tables: &[u16; TABLE_SIZE],
    runs: &mut [u8],
    count: u64,
    t: u64,
    allowance: u64,
    bags: &[u8],
    places: Places,
    traces: &mut [u8],
) -> Channels
    requires { ChannelsOpened file.now accepted.counts tables.now accepted.routes count allowance }
    ensures { channelled_of runs.new traces.new result
        ≡ advance_channels file.now runs.old
        (channels_call_of count t allowance bags.now places traces.old) }
{
    let n = accepted.counts;
    if accepted.routes <= FEW_ROUTES {
        channels_in::<FEW_WORDS>(
            file, n, tables, runs, count, t, allowance, bags, places, traces,
        )
    } else {
        channels_in::<MOST_WORDS>(
            file, n, tables, runs, count, t, allowance, bags, places, traces,
        )
    }
}

pub fn advance_channels(
    file: &[u8],
    runs: &mut [u8],
    count: u64,
    t: u64,
    allowance: u64,
    bags: &[u8],
    places: Places,
    traces: &mut [u8],
) -> Channels
    ensures { channelled_of runs.new traces.new result
        ≡ advance_channels file.now runs.old
        (channels_call_of count t allowance bags.now places traces.old) }
{
    if is_miscounted(count, allowance) {
        return Channels::from(Refusal::BadChannels);
    }
    let mut tables = [0u16; TABLE_SIZE];
    // Not by `?` in a function of its own, as other calls have it: the answer is large and would go through memory once more.
    match accept_tables::open_model(file, &mut tables) {
        Ok(accepted) => channels_accepted(
            file, accepted, &tables, runs, count, t, allowance, bags, places, traces,
        ),
        Err(refusal) => Channels::from(refusal),
    }
}

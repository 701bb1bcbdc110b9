// The channels in turn, each on its own parts of the two buffers, with its share of the steps and what the earlier ones left over. The model, its
// tables and the buffer for bags are lent once for all of them.
#![tactic(auto)]

ghost use Rattle.std.specs.Prelude.{◌≡◌, length};
ghost use Rattle.definition.specs.Bytes.{ok};
ghost use Rattle.definition.specs.FlatChannels.{boxed};
ghost use Rattle.model_file.specs.Checked.{model_of};
ghost use Rattle.call_answers.specs.Answers.{channels_call_of, channelled_of};
ghost use Rattle.channel_loop.specs.InTurn.{all_in_turn, CanTurn};

use call_answers::{Advanced, Channels, Places};
use channel_turn::turn;
use model_file::Counts;
use table_words::TABLE_SIZE;

pub fn advance_parts(
    file: &[u8],
    n: Counts,
    tables: &[u16; TABLE_SIZE],
    runs: &mut [u8],
    count: u64,
    t: u64,
    allowance: u64,
    bags: &[u8],
    places: Places,
    traces: &mut [u8],
    work: &mut [u32],
) -> Channels
    requires { CanTurn file.now n tables.now count (length work.old) }
    ensures { channelled_of runs.new traces.new result
        ≡ boxed runs.old traces.old (ok (all_in_turn (model_of file.now n) runs.old
        (channels_call_of count t allowance bags.now places traces.old))) }
{
    let parts = count as usize;
    let of_run = runs.len() / parts;
    let of_trace = traces.len() / parts;
    let share = allowance / count;
    let mut channel = [Advanced::default(); 8];
    let mut left: u64 = 0;
    for i in 0..parts {
        let run_at = of_run * i;
        let run_end = run_at + of_run;
        let trace_at = of_trace * i;
        let trace_end = trace_at + of_trace;
        let has = share + left;
        let told = turn(
            file,
            n,
            tables,
            &mut runs[run_at..run_end],
            t,
            bags,
            places.channel[i],
            has,
            &mut traces[trace_at..trace_end],
            work,
        );
        left = has - told.steps;
        channel[i] = told;
    }
    Channels { number: 0, channel }
}

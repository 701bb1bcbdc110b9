// The number of a component in the flat form, looked up in the tables of a call.
#![tactic(auto)]

ghost use Rattle.std.specs.Prelude.{◌≡◌};
ghost use Rattle.flat_ranks.specs.Ranks.{rank_of};

use table_words::{POSITIONS_AT, word_at};

pub fn rank_of(tables: &[u16], c: u32) -> u32
    ensures { result ≡ rank_of tables.now c }
{
    if c == 0 {
        return 0;
    }
    word_at(tables, POSITIONS_AT + c as usize) as u32 + 1
}

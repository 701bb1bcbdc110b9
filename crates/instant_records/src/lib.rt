// Trace records: the record of a step is put into a lent buffer where it fits, and its bytes are counted in any case.
#![tactic(auto)]

ghost use Rattle.std.specs.Prelude.{◌≡◌, map, ◌+◌, ◌*◌, ◌≤◌, length, take};
ghost use Rattle.std.proofs.lemmas.List.Edits.{sets};
ghost use Rattle.definition.specs.Lists.{concat};
ghost use Rattle.definition.specs.Limits.{message_size};
ghost use Rattle.definition.specs.Records.{message_bytes};
ghost use Rattle.definition.specs.Instant.{record_bytes};
ghost use Rattle.law_base.specs.Keys.{message_of};
ghost use Rattle.instant_records.specs.Written.{record_head, record_of, step_size, step_put, word_max};

use clock::Moment;
use limits::{MESSAGE_SIZE, RECORD_COUNT_AT, RECORD_HEAD, RECORD_STEP_AT};
use little_endian::put_number;

// The messages of the first `count` keys.
fn put_messages(out: &mut [u8], at: usize, keys: &[u32], count: usize)
    requires { (count ≤ length keys.now) × (at + message_size * count ≤ length out.old) }
    ensures { out.new ≡ sets out.old at (concat (map message_bytes (map message_of (take count keys.now)))) }
{
    for i in 0..count {
        let key = keys[i] as u64;
        put_number(out, at + MESSAGE_SIZE * i, 1, key / 65536);
        put_number(out, at + MESSAGE_SIZE * i + 1, 2, key % 65536);
    }
}

// The record of the first `count` keys.
fn put_record(out: &mut [u8], at: usize, moment: Moment, step: u64, keys: &[u32], count: usize)
    requires { (count ≤ length keys.now) × (at + record_head + message_size * count ≤ length out.old) }
    ensures { out.new ≡ sets out.old at (record_bytes (record_of moment.0 step (take count keys.now))) }
{
    put_number(out, at, 8, moment.0);
    put_number(out, at + RECORD_STEP_AT, 2, step);
    put_number(out, at + RECORD_COUNT_AT, 2, count as u64);
    put_messages(out, at + RECORD_HEAD, keys, count);
}

// A step's record, if it has messages, put at `used` where it fits; the answer is where it ends, in any case.
pub fn put_step(
    out: &mut [u8],
    used: usize,
    moment: Moment,
    step: u64,
    keys: &[u32],
    count: usize,
) -> usize
    requires { (count ≤ length keys.now) × (used + record_head + message_size * count ≤ word_max) }
    ensures { (result ≡ used + step_size count) × (out.new ≡ step_put moment.0 step keys.now count used out.old) }
{
    if count == 0 {
        return used;
    }
    let end = used + RECORD_HEAD + MESSAGE_SIZE * count;
    if end <= out.len() {
        put_record(out, used, moment, step, keys, count);
    }
    end
}

// Messages put as keys into a lent buffer, one after the other: a key is the port times 65,536 and the value, and the port is that of
// the end where the message arrives. A buffer that is full takes no more, so that nothing is asked of its length.
#![tactic(auto)]

ghost use Rattle.std.specs.Prelude.{◌≡◌, length};
ghost use Rattle.definition.specs.Engine.{to_bag};
ghost use Rattle.definition.specs.Model.{outputs};
ghost use Rattle.definition.specs.Pinned.Decoder.{to_phase};
ghost use Rattle.model_records.specs.Values.{phases_in};
ghost use Rattle.spec_step.specs.Put.{put1, puts, values_on};
ghost use Rattle.step_keys.specs.Sent.{sent_on, wanted_value};

use limits::{MESSAGE_SIZE, PHASE_SIZE};

// A phase record: advance (4), next phase (1), output count (1), and four slots, each a message.
const COUNT_AT: usize = 5;

const SLOTS_AT: usize = 6;

const SLOTS: usize = 4;

// The length of the buffer's used front is the answer.
fn put_key(key: u32, buf: &mut [u32], at: usize) -> usize
    ensures { (buf.new, result) ≡ put1 key (buf.old, at) }
{
    if at < buf.len() {
        buf[at] = key;
        at + 1
    } else {
        at
    }
}

// A value as a message on port `own`, where it is wanted.
fn put_wanted(wanted: bool, value: u16, own: u8, buf: &mut [u32], at: usize) -> usize
    ensures { (buf.new, result) ≡ puts own (wanted_value wanted value) (buf.old, at) }
{
    if wanted {
        put_key(own as u32 * 65536 + value as u32, buf, at)
    } else {
        at
    }
}

// How many slots a phase record uses.
fn used_slots(phase: &[u8]) -> usize
    ensures { result ≡ length (outputs (to_phase phase.now)) }
{
    let count = little_endian::byte_at(phase, COUNT_AT) as usize;
    if count < SLOTS { count } else { SLOTS }
}

// The used slots of a phase record on port q.
fn put_slots(phase: &[u8], q: u8, own: u8, buf: &mut [u32], at: usize) -> usize
    ensures { (buf.new, result) ≡ puts own (values_on q (outputs (to_phase phase.now))) (buf.old, at) }
{
    let n = used_slots(phase);
    let mut next = at;
    for j in 0..n {
        let slot = SLOTS_AT + MESSAGE_SIZE * j;
        let port = little_endian::byte_at(phase, slot);
        let value = little_endian::u16_at(phase, slot + 1);
        next = put_wanted(q == port, value, own, buf, next);
    }
    next
}

// What an atomic with this mark puts out on port q. Its phase record ends where so many records do as the mark says: whether it lies within the
// section is one product, which is also its place. The number of records would be a quotient, computed in every call that collects a port.
pub fn put_sent(phases: &[u8], mark: u32, q: u8, own: u8, buf: &mut [u32], at: usize) -> usize
    ensures { (buf.new, result) ≡ puts own (sent_on (phases_in phases.now) mark q) (buf.old, at) }
{
    if mark == 0 {
        return at;
    }
    let end = PHASE_SIZE * (mark as usize);
    if phases.len() < end {
        return at;
    }
    let start = end - PHASE_SIZE;
    put_slots(&phases[start..end], q, own, buf, at)
}

// What is given at the root's input port q.
pub fn put_given(given: &[u8], q: u8, own: u8, buf: &mut [u32], at: usize) -> usize
    ensures { (buf.new, result) ≡ puts own (values_on q (to_bag given.now)) (buf.old, at) }
{
    let n = given.len() / MESSAGE_SIZE;
    let mut next = at;
    for i in 0..n {
        let port = little_endian::byte_at(given, MESSAGE_SIZE * i);
        let value = little_endian::u16_at(given, MESSAGE_SIZE * i + 1);
        next = put_wanted(q == port, value, own, buf, next);
    }
    next
}

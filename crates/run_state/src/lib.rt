// The state of a run inside a call: one lent array of words, so that a function is handed one thing. By the position of an atomic in file
// order: its phase and the rule of its last external part, in one word; its last moment; and when it is due as a number, 2^64 - 1 for
// never. And two words: when the whole model is next due; and whose rule is one of the instant, a bit for each position.
#![tactic(auto)]

ghost use Rattle.std.specs.Prelude.{◌≡◌, ◌+◌, ◌*◌, ◌^◌, ◌<◌, get_or, set, length};
ghost use Rattle.std.specs.Int.Bits.{bit_or};
ghost use Rattle.definition.specs.Limits.{max_components};
ghost use Rattle.run_state.specs.Held.{state_size, last_at, told_at, held_in, rules_beside, bits_in, is_told, last_rules_in, ends_in, next_in, EntryPut, NoRulePut, LedPut, RulesCleared, EndPut, NextPut};

use clock::Moment;
use limits::{MAX_COMPONENTS, NO_POSITION};

const LAST_AT: usize = MAX_COMPONENTS;

const END_AT: usize = 2 * MAX_COMPONENTS;

const NEXT_AT: usize = 3 * MAX_COMPONENTS;

// A phase is a byte, the position of a rule two; both stand in one word, so that what an attempt keeps of a state is no longer for them.
const PHASE_VALUES: u64 = 256;

const RULE_VALUES: u64 = 65536;

const TOLD_AT: usize = NEXT_AT + 1;

pub const STATE_SIZE: usize = TOLD_AT + 1;

// What the laws of a step call a state: the phases and the last moments by position.
#[derive(Drop)]
pub struct State {
    pub phase: [u8; MAX_COMPONENTS],
    pub last: [u64; MAX_COMPONENTS],
}

// An array tells its length where it is lent as a slice. For the proofs alone: nothing is run.
pub fn whole(state: &[u64; STATE_SIZE])
    ensures { length state.now ≡ state_size }
{
    let _all: &[u64] = state;
}

// ---- reading

pub fn phase_at(state: &[u64; STATE_SIZE], position: usize) -> u8
    requires { position < max_components }
    ensures { result ≡ get_or (held_in state.now).phase position 0 }
{
    // The remainder says that a byte is enough; it costs nothing.
    (state[position] % PHASE_VALUES) as u8
}

// The rule that stands beside its phase, whether or not it is one of the instant.
fn beside_at(state: &[u64; STATE_SIZE], position: usize) -> u16
    requires { position < max_components }
    ensures { result ≡ get_or (rules_beside state.now) position 0 }
{
    (state[position] / PHASE_VALUES % RULE_VALUES) as u16
}

// The bit of a position.
fn bit_of(position: usize) -> u64
    requires { position < max_components }
    ensures { result ≡ 2 ^ position }
{
    1u64 << (position as u32)
}

fn bits_in(state: &[u64; STATE_SIZE]) -> u64
    ensures { result ≡ bits_in state.now }
{
    state[TOLD_AT]
}

// Whether the rule beside it is one of the instant.
fn is_told(state: &[u64; STATE_SIZE], position: usize) -> bool
    requires { position < max_components }
    ensures { result ≡ is_told state.now position }
{
    bits_in(state) / bit_of(position) % 2 == 1
}

// The rule of the atomic's last external part in the instant, 65,535 for none.
pub fn rule_at(state: &[u64; STATE_SIZE], position: usize) -> u16
    requires { position < max_components }
    ensures { result ≡ get_or (last_rules_in state.now) position 0 }
{
    whole(state);
    if is_told(state, position) {
        beside_at(state, position)
    } else {
        NO_POSITION
    }
}

pub fn last_at(state: &[u64; STATE_SIZE], position: usize) -> Moment
    requires { position < max_components }
    ensures { result.0 ≡ get_or (held_in state.now).last position 0 }
{
    Moment(state[LAST_AT + position])
}

pub fn end_at(state: &[u64; STATE_SIZE], position: usize) -> u64
    requires { position < max_components }
    ensures { result ≡ get_or (ends_in state.now) position 0 }
{
    state[END_AT + position]
}

pub fn next_due(state: &[u64; STATE_SIZE]) -> u64
    ensures { result ≡ next_in state.now }
{
    state[NEXT_AT]
}

// ---- writing

// The word of a phase and a rule.
fn packed(phase: u8, rule: u16) -> u64
    ensures { result ≡ phase + 256 * rule }
{
    phase as u64 + PHASE_VALUES * rule as u64
}

// Phase, rule and last moment of a position.
fn put_words(state: &mut [u64; STATE_SIZE], position: usize, phase: u8, since: Moment, rule: u16)
    requires { position < max_components }
    ensures { state.new ≡ set (set state.old position (phase + 256 * rule)) (last_at + position) since.0 }
{
    state[position] = packed(phase, rule);
    state[LAST_AT + position] = since.0;
}

// The atomic at a position is in a phase since a moment.
pub fn put_at(state: &mut [u64; STATE_SIZE], position: usize, phase: u8, since: Moment)
    requires { position < max_components }
    ensures { EntryPut state.old state.new position phase since.0 }
{
    let kept = beside_at(state, position);
    put_words(state, position, phase, since, kept);
}

// The rule beside it is one of the instant. Without a test whether the bit is set: a jump costs more than the store that it spares.
fn put_told(state: &mut [u64; STATE_SIZE], position: usize)
    requires { position < max_components }
    ensures { state.new ≡ set state.old told_at (bit_or (bits_in state.old) (2 ^ position)) }
{
    state[TOLD_AT] = bits_in(state) | bit_of(position);
}

// Its last external part had no rule, which the table tells as it tells that there was none: its bit goes.
pub fn put_no_rule(state: &mut [u64; STATE_SIZE], position: usize)
    requires { position < max_components }
    ensures { NoRulePut state.old state.new position }
{
    whole(state);
    let bit = bit_of(position);
    state[TOLD_AT] = (bits_in(state) | bit) ^ bit;
}

// Its last external part was decided by the rule at a position, or by none, and led into a phase, in which it is since a moment. The moment is
// stored last: who reads it next then has it without a load.
pub fn put_led(state: &mut [u64; STATE_SIZE], position: usize, phase: u8, since: Moment, rule: u16)
    requires { position < max_components }
    ensures { LedPut state.old state.new position phase since.0 rule }
{
    whole(state);
    put_told(state, position);
    put_words(state, position, phase, since, rule);
}

// No atomic has had an external part in the instant: one store, with a table to fill and without.
pub fn clear_rules(state: &mut [u64; STATE_SIZE])
    ensures { RulesCleared state.old state.new }
{
    whole(state);
    state[TOLD_AT] = 0;
}

// When it is due.
pub fn put_end(state: &mut [u64; STATE_SIZE], position: usize, end: u64)
    requires { position < max_components }
    ensures { EndPut state.old state.new position end }
{
    state[END_AT + position] = end;
}

// When the whole model is.
pub fn put_next(state: &mut [u64; STATE_SIZE], due: u64)
    ensures { NextPut state.old state.new due }
{
    whole(state);
    state[NEXT_AT] = due;
}

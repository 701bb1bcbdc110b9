// The text that the printing program writes: the lines of a run, put into a lent buffer.
#![tactic(auto)]

ghost use Rattle.std.specs.Prelude.{◌≡◌, ◌≤◌, ◌<◌, [], length};
ghost use Rattle.definition.specs.Engine.{start, advance};
ghost use Rattle.run_text.specs.Put.{put1, put};
ghost use Rattle.run_text.specs.Printed.{Printed};
ghost use Rattle.run_text.specs.Text.{digit as Text·digit, text_room};
ghost use Rattle.run_text.specs.Text.{decimal_in, field, message_line, message_lines, trace_lines, record_lines, end_line, refused_line, last_line, advanced_text, started_text, input_text, run_text};

use limits::{
    COMPONENT_SIZE, COUNT_SIZE, COUPLING_SIZE, FIFTH_SIZE, MAX_COMPONENTS, MAX_COUPLINGS,
    MAX_PHASES, MAX_RULES, MESSAGE_SIZE, PHASE_SIZE, RECORD_COUNT_AT, RECORD_HEAD, RECORD_STEP_AT,
    RULE_SIZE, RUN_ENTRY_SIZE, RUN_HEAD_SIZE,
};
use little_endian::{byte_at, front, rest, u16_at, u64_at};

// The run of the largest model: 63 atomics.
const RUN_ROOM: usize = RUN_HEAD_SIZE + RUN_ENTRY_SIZE * (MAX_COMPONENTS - 1);

const TRACE_ROOM: usize = 16384;

const MAX_DIGITS: usize = 20;

const MOMENT_SIZE: usize = 8;

const FIRST_LINE: usize = 21;

// The longest line of a message: 20 digits of a moment, 5 of a step, 3 of a port, 5 of a value, and a byte after each.
const LONGEST_LINE: usize = 37;

const LONGEST_LAST: usize = 52;

// Room for the text of every input: each message takes three bytes of the trace.
pub const TEXT_ROOM: usize = FIRST_LINE + LONGEST_LINE * (TRACE_ROOM / MESSAGE_SIZE) + LONGEST_LAST;

const LONGEST_MODEL: usize = 4 * COUNT_SIZE
    + COMPONENT_SIZE * MAX_COMPONENTS
    + PHASE_SIZE * MAX_PHASES
    + RULE_SIZE * MAX_RULES
    + COUPLING_SIZE * MAX_COUPLINGS
    + FIFTH_SIZE;

// As much of an input as is ever asked for: one byte more than the longest, so that a file with a byte too many is still seen to
// have it.
pub const INPUT_ROOM: usize = MOMENT_SIZE + LONGEST_MODEL + 1;

fn digit(n: u64) -> u8
    requires { n < 10 }
    ensures { result ≡ Text·digit n }
{
    48 + n as u8
}

fn put_byte(out: &mut [u8], at: usize, b: u8) -> usize
    ensures { (out.new, result) ≡ put1 b (out.old, at) }
{
    if at < out.len() {
        out[at] = b;
        at + 1
    } else {
        at
    }
}

// The last k digits of n at most.
fn put_decimal(out: &mut [u8], at: usize, n: u64, k: usize) -> usize
    ensures { (out.new, result) ≡ put (decimal_in k n) (out.old, at) }
{
    if k == 0 {
        return at;
    }
    if n < 10 {
        return put_byte(out, at, digit(n));
    }
    let next = put_decimal(out, at, n / 10, k - 1);
    put_byte(out, next, digit(n % 10))
}

// A number and the byte after it.
fn put_field(out: &mut [u8], at: usize, n: u64, after: u8) -> usize
    ensures { (out.new, result) ≡ put (field n after) (out.old, at) }
{
    let next = put_decimal(out, at, n, MAX_DIGITS);
    put_byte(out, next, after)
}

fn put_text(out: &mut [u8], at: usize, text: &[u8]) -> usize
    ensures { (out.new, result) ≡ put text.now (out.old, at) }
{
    let mut to = at;
    for k in 0..text.len() {
        to = put_byte(out, to, text[k]);
    }
    to
}

// The line of the message at the front of the row.
fn put_message(out: &mut [u8], at: usize, moment: u64, step: u16, row: &[u8]) -> usize
    ensures { (out.new, result) ≡ put (message_line moment step row.now) (out.old, at) }
{
    let a = put_field(out, at, moment, b' ');
    let b = put_field(out, a, step as u64, b' ');
    let c = put_field(out, b, byte_at(row, 0) as u64, b' ');
    put_field(out, c, u16_at(row, 1) as u64, b'\n')
}

fn put_messages(out: &mut [u8], at: usize, moment: u64, step: u16, count: u16, rows: &[u8]) -> usize
    ensures { (out.new, result) ≡ put (message_lines count moment step rows.now) (out.old, at) }
{
    let n = count as usize;
    let mut to = at;
    for k in 0..n {
        to = put_message(out, to, moment, step, rest(rows, MESSAGE_SIZE * k));
    }
    to
}

// The lines of the record at the front of the trace.
fn put_record(out: &mut [u8], at: usize, trace: &[u8]) -> usize
    ensures { (out.new, result) ≡ put (record_lines trace.now) (out.old, at) }
{
    put_messages(
        out,
        at,
        u64_at(trace, 0),
        u16_at(trace, RECORD_STEP_AT),
        u16_at(trace, RECORD_COUNT_AT),
        rest(trace, RECORD_HEAD),
    )
}

fn put_trace(out: &mut [u8], at: usize, trace: &[u8]) -> usize
    ensures { (out.new, result) ≡ put (trace_lines trace.now) (out.old, at) }
{
    let mut from: usize = 0;
    let mut to = at;
    for _ in 0..trace.len() {
        if trace.len() <= from {
            return to;
        }
        let here = rest(trace, from);
        to = put_record(out, to, here);
        from += (RECORD_HEAD + MESSAGE_SIZE * u16_at(here, RECORD_COUNT_AT) as usize);
    }
    to
}

fn put_end(out: &mut [u8], at: usize, opening: u64, steps: u64) -> usize
    ensures { (out.new, result) ≡ put (end_line opening steps) (out.old, at) }
{
    let a = put_text(out, at, b"end ");
    let b = put_field(out, a, opening, b' ');
    let c = put_text(out, b, b"steps ");
    put_field(out, c, steps, b'\n')
}

fn put_refused(out: &mut [u8], at: usize, refusal: u64) -> usize
    ensures { (out.new, result) ≡ put (refused_line refusal) (out.old, at) }
{
    let next = put_text(out, at, b"refused ");
    put_field(out, next, refusal, b'\n')
}

fn put_last(out: &mut [u8], at: usize, refusal: u64, run: &[u8], steps: u64) -> usize
    ensures { (out.new, result) ≡ put (last_line refusal run.now steps) (out.old, at) }
{
    if refusal == 0 {
        put_end(out, at, u64_at(run, 0), steps)
    } else {
        put_refused(out, at, refusal)
    }
}

fn put_advanced(
    out: &mut [u8],
    at: usize,
    model: &[u8],
    end: u64,
    run: &mut [u8],
    trace: &mut [u8],
) -> usize
    ensures { (out.new, result) ≡ put (advanced_text (advance model.now run.old end [] trace.old [])) (out.old, at) }
{
    let mut table = [0u8; 0];
    let answer = engine::advance(model, run, end, front(model, 0), trace, &mut table);
    let next = put_trace(out, at, front(trace, answer.trace_bytes as usize));
    put_last(out, next, answer.number, run, answer.steps)
}

fn put_run(
    out: &mut [u8],
    at: usize,
    model: &[u8],
    end: u64,
    run: &mut [u8],
    trace: &mut [u8],
) -> usize
    ensures { (out.new, result) ≡ put (started_text model.now end trace.old (start model.now run.old)) (out.old, at) }
{
    let started = engine::start(model, run);
    if started.number == 0 {
        put_advanced(out, at, model, end, run, trace)
    } else {
        put_refused(out, at, started.number)
    }
}

fn put_input(out: &mut [u8], input: &[u8], run: &mut [u8], trace: &mut [u8]) -> usize
    ensures { (out.new, result) ≡ put (input_text input.now run.old trace.old) (out.old, 0) }
{
    let at = put_text(out, 0, b"time step port value\n");
    if input.len() < MOMENT_SIZE {
        put_refused(out, at, 1)
    } else {
        put_run(
            out,
            at,
            rest(input, MOMENT_SIZE),
            u64_at(input, 0),
            run,
            trace,
        )
    }
}

// The lines of the run for an end moment and a model file, at the front of the lent buffer as far as it goes; answers their length.
fn run_text(input: &[u8], out: &mut [u8]) -> usize
    ensures { ((out.new, result) ≡ put (run_text input.now) (out.old, 0)) × (length (run_text input.now) ≤ text_room) }
{
    let mut run = [0u8; RUN_ROOM];
    let mut trace = [0u8; TRACE_ROOM];
    put_input(out, input, &mut run, &mut trace)
}

// The text of an input of which n bytes were read, all or as many as the buffer holds: it stands whole at the front of the page,
// and the answer is its length.
pub fn whole_text(input: &[u8; INPUT_ROOM], n: usize, text: &mut [u8; TEXT_ROOM]) -> usize
    ensures { Printed input.now n text.new result × (length text.new ≡ text_room) }
{
    run_text(front(input, n), text)
}

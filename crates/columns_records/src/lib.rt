// A record whose numbers lie at given places, judged and put elsewhere: the same code for records in a row and for columns.
#![tactic(auto)]

ghost use Rattle.std.specs.Prelude.{◌≡◌, length, ◌+◌, ◌<◌, ◌≤◌};
ghost use Rattle.std.proofs.lemmas.List.Edits.{sets};
ghost use Rattle.definition.specs.Bytes.{number_at, bytes_of};
ghost use Rattle.law_base.specs.Keys.{key_of};
ghost use Rattle.law_columns.specs.ByPosition.{keys_rise};
ghost use Rattle.columns_records.specs.Places.{Near, MessagesWithin, HeadWithin, RecordWithin, messages_at, count_at, record_at, pair_above, fits_after, messages_put, head_put, record_put};

use limits::PORT_COUNT;
use little_endian::{put_number, u16_within, u64_within};

// Where the numbers of a record lie: its moment, step and message count, its first port and its first value.
#[derive(Clone, Copy)]
pub struct Places {
    pub moment: usize,
    pub step: usize,
    pub count: usize,
    pub ports: usize,
    pub values: usize,
}

// How far from each other the ports of a record lie, and its values.
#[derive(Clone, Copy)]
pub struct Apart {
    pub ports: usize,
    pub values: usize,
}

// Moment and step of a record, by which records rise.
#[derive(Clone, Copy)]
pub struct Pair {
    pub moment: u64,
    pub step: u16,
}

// Of messages that lie beside each other it pays to judge several at once, from so many on (docs/PERFORMANCE.md).
const MANY: usize = 16;

// A message as one number, in the order of messages.
fn key_of(port: u8, value: u16) -> u32
    ensures { result ≡ key_of port value }
{
    port as u32 * 65536 + value as u32
}

// So many messages are on ports that there are, and do not fall: the first one that does not pass ends it.
fn rise_stopping(s: &[u8], ports: usize, values: usize, apart: Apart, count: usize) -> bool
    requires { Near apart × MessagesWithin (length s.now) apart ports values count }
    ensures { result ≡ keys_rise 0 (messages_at apart ports values count s.now) }
{
    let mut low: u32 = 0;
    let mut p = ports;
    let mut v = values;
    for _ in 0..count {
        let port = s[p];
        if PORT_COUNT <= port {
            return false;
        }
        let key = key_of(port, u16_within(s, v));
        if key < low {
            return false;
        }
        low = key;
        p += apart.ports;
        v += apart.values;
    }
    true
}

// The same, told at the end: a loop without a way out is compiled to one that judges several messages at once.
fn rise_unbroken(s: &[u8], ports: usize, values: usize, apart: Apart, count: usize) -> bool
    requires { Near apart × MessagesWithin (length s.now) apart ports values count }
    ensures { result ≡ keys_rise 0 (messages_at apart ports values count s.now) }
{
    let mut low: u32 = 0;
    let mut rise = true;
    let mut p = ports;
    let mut v = values;
    for _ in 0..count {
        let port = s[p];
        let key = key_of(port, u16_within(s, v));
        rise &= (port < PORT_COUNT) & (low <= key);
        low = key;
        p += apart.ports;
        v += apart.values;
    }
    rise
}

// The same, by the one loop or the other. In a row messages lie too far apart to be read several at once.
fn messages_rise(s: &[u8], ports: usize, values: usize, apart: Apart, count: usize) -> bool
    requires { Near apart × MessagesWithin (length s.now) apart ports values count }
    ensures { result ≡ keys_rise 0 (messages_at apart ports values count s.now) }
{
    if (apart.ports == 1) & (MANY <= count) {
        return rise_unbroken(s, ports, values, apart, count);
    }
    rise_stopping(s, ports, values, apart, count)
}

// A pair of moment and step lies above that of the record before, if there was one.
fn pair_above(last: Option<Pair>, moment: u64, step: u16) -> bool
    ensures { result ≡ pair_above last moment step }
{
    let Some(last) = last else {
        return true;
    };
    (last.moment < moment) | ((last.moment == moment) & (last.step < step))
}

// The record is not empty, lies above the one before, and its messages rise.
pub fn record_fits(s: &[u8], at: Places, apart: Apart, last: Option<Pair>) -> bool
    requires { Near apart × RecordWithin (length s.now) apart at (count_at at s.now) }
    ensures { result ≡ fits_after last apart at s.now }
{
    let count = u16_within(s, at.count);
    if count == 0 {
        return false;
    }
    if !pair_above(last, u64_within(s, at.moment), u16_within(s, at.step)) {
        return false;
    }
    messages_rise(s, at.ports, at.values, apart, count as usize)
}

// The number in two bytes, put at another place.
fn put_two(s: &[u8], at: usize, out: &mut [u8], to: usize)
    requires { (at + 2 ≤ length s.now) × (to + 2 ≤ length out.old) }
    ensures { out.new ≡ sets out.old to (bytes_of 2 (number_at 2 at s.now)) }
{
    put_number(out, to, 2, u16_within(s, at) as u64);
}

// One message, its port and its value each put at another place.
fn put_message(s: &[u8], port: usize, value: usize, out: &mut [u8], to_port: usize, to_value: usize)
    requires { (port < length s.now) × (value + 2 ≤ length s.now) × (to_port < length out.old) × (to_value + 2 ≤ length out.old) }
    ensures { out.new ≡ sets (sets out.old to_port (bytes_of 1 (number_at 1 port s.now))) to_value (bytes_of 2 (number_at 2 value s.now)) }
{
    put_number(out, to_port, 1, s[port] as u64);
    put_two(s, value, out, to_value);
}

// So many messages, put where they lie in the other form.
fn put_messages(
    s: &[u8],
    ports: usize,
    values: usize,
    apart: Apart,
    count: usize,
    out: &mut [u8],
    to_ports: usize,
    to_values: usize,
    to_apart: Apart,
)
    requires { Near apart × MessagesWithin (length s.now) apart ports values count × Near to_apart × MessagesWithin (length out.old) to_apart to_ports to_values count }
    ensures { out.new ≡ messages_put to_apart to_ports to_values (messages_at apart ports values count s.now) out.old }
{
    let mut p = ports;
    let mut v = values;
    let mut q = to_ports;
    let mut w = to_values;
    for _ in 0..count {
        put_message(s, p, v, out, q, w);
        p += apart.ports;
        v += apart.values;
        q += to_apart.ports;
        w += to_apart.values;
    }
}

// A record's moment, step and message count, each put at another place.
fn put_head(s: &[u8], at: Places, out: &mut [u8], to: Places)
    requires { HeadWithin (length s.now) at × HeadWithin (length out.old) to }
    ensures { out.new ≡ head_put to (number_at 8 at.moment s.now) (number_at 2 at.step s.now) (count_at at s.now) out.old }
{
    let moment = u64_within(s, at.moment);
    put_number(out, to.moment, 8, moment);
    put_two(s, at.step, out, to.step);
    put_two(s, at.count, out, to.count);
}

// The record, put where it lies in the other form.
pub fn put_record(s: &[u8], at: Places, apart: Apart, out: &mut [u8], to: Places, to_apart: Apart)
    requires { Near apart × RecordWithin (length s.now) apart at (count_at at s.now) × Near to_apart × RecordWithin (length out.old) to_apart to (count_at at s.now) }
    ensures { out.new ≡ record_put to_apart to (record_at apart at s.now) out.old }
{
    let count = u16_within(s, at.count);
    put_head(s, at, out, to);
    put_messages(
        s,
        at.ports,
        at.values,
        apart,
        count as usize,
        out,
        to.ports,
        to.values,
        to_apart,
    );
}

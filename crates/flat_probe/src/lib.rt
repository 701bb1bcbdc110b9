// The phase records and the flags of the probing step: each component has a record that puts out, at each of its four output ports, that
// port's own number as value. So a message that arrives at an end names the port where its route begins.
#![tactic(auto)]

ghost use Rattle.std.specs.Prelude.{◌≡◌, ◌+◌, ◌*◌, ◌≤◌, length};
ghost use Rattle.std.proofs.lemmas.List.Edits.{sets};
ghost use Rattle.definition.specs.Limits.{max_components, phase_size};
ghost use Rattle.definition.specs.Records.{message_bytes, phase_bytes};
ghost use Rattle.model_records.specs.Values.{phases_in};
ghost use Rattle.spec_step.specs.Flags.{flags_size};
ghost use Rattle.flat_probe.specs.Probe.{own_port, probe_of, probes, probe_flags};

use limits::{MAX_COMPONENTS, PHASE_SIZE};
use little_endian::put_number;
use table_words::FLAGS_SIZE;

// A slot: output port q of component c, with its number.
fn put_slot(c: usize, q: u8, out: &mut [u8], at: usize)
    requires { (c ≤ max_components) × (at + 3 ≤ length out.old) }
    ensures { out.new ≡ sets out.old at (message_bytes (own_port c q)) }
{
    put_number(out, at, 1, q as u64);
    put_number(out, at + 1, 2, 8 * c as u64 + (4 + q as u64));
}

// Advance and next phase 0, four outputs, and the four ports.
fn put_probe(c: usize, out: &mut [u8], at: usize)
    requires { (c ≤ max_components) × (at + 18 ≤ length out.old) }
    ensures { out.new ≡ sets out.old at (phase_bytes (probe_of c)) }
{
    put_number(out, at, 5, 0);
    put_number(out, at + 5, 1, 4);
    put_slot(c, 0, out, at + 6);
    put_slot(c, 1, out, at + 9);
    put_slot(c, 2, out, at + 12);
    put_slot(c, 3, out, at + 15);
}

// A record for each component.
pub fn put_probes(out: &mut [u8])
    requires { length out.old ≡ max_components * phase_size }
    ensures { phases_in out.new ≡ probes }
{
    for c in 0..MAX_COMPONENTS {
        put_probe(c, out, PHASE_SIZE * c);
    }
}

fn next_number(i: usize) -> u32
    requires { i ≤ flags_size }
    ensures { result ≡ i + 1 }
{
    (i + 1) as u32
}

// The flags: each component's mark is its own record and 1; that it may be reached is any number but 0, so that the numbers go on.
pub fn put_flags(flags: &mut [u32])
    requires { length flags.old ≡ flags_size }
    ensures { flags.new ≡ probe_flags }
{
    for i in 0..FLAGS_SIZE {
        flags[i] = next_number(i);
    }
}

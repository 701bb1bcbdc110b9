// The bag of a call, as bytes: whether it keeps its lines, and nothing more.
#![tactic(auto)]

ghost use Rattle.std.specs.Prelude.{◌≡◌, ◌/◌, length};
ghost use Rattle.definition.specs.Lists.{all};
ghost use Rattle.definition.specs.Records.{port_fits};
ghost use Rattle.definition.specs.Engine.{to_bag, bag_fits};

use limits::{MAX_GIVEN, MESSAGE_SIZE, PORT_COUNT};

// Every message is on a port that there is.
fn ports_fit(bag: &[u8]) -> bool
    ensures { result ≡ all port_fits (to_bag bag.now) }
{
    let n = bag.len() / MESSAGE_SIZE;
    for i in 0..n {
        if PORT_COUNT <= little_endian::byte_at(bag, MESSAGE_SIZE * i) {
            return false;
        }
    }
    true
}

// "12 length not a multiple of 3, over 16 messages, or a port above 3"
pub fn bag_fits(bag: &[u8]) -> bool
    ensures { result ≡ bag_fits bag.now }
{
    let size = bag.len();
    (size % MESSAGE_SIZE == 0) & (size <= MESSAGE_SIZE * MAX_GIVEN) & ports_fit(bag)
}

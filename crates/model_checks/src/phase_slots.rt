// The four slots of a phase: each is compared by one number.
ghost use Rattle.std.specs.Prelude.{◌≡◌, ◌&&◌};
ghost use Rattle.definition.specs.Pinned.Decoder.{used_fit, unused_fit};
ghost use Rattle.model_records.specs.Values.{message_of, phase_of};
ghost use Rattle.model_checks.specs.Reads.{message_of_key};

use model_records::{Message, Phase};

// A message whose port is in its range has a key below this one.
const KEYS_END: usize = 262144;

// A message as one number. Keys stand in the order of their messages.
fn message_key(message: Message) -> usize
    ensures { message_of_key result ≡ message_of message }
{
    message.port as usize * 65536 + message.value as usize
}

// Slots that are not used are zero, and used ones never fall. A key below KEYS_END has a port in its range; where keys never fall, all of
// them lie below KEYS_END if the last one does.
pub fn slots_fit(phase: Phase) -> bool
    ensures { result ≡ (used_fit (phase_of phase) && unused_fit (phase_of phase)) }
{
    let used = phase.output_count;
    let key0 = message_key(phase.slot0);
    let key1 = message_key(phase.slot1);
    let key2 = message_key(phase.slot2);
    let key3 = message_key(phase.slot3);
    if 3 < used {
        return (key0 <= key1) & (key1 <= key2) & (key2 <= key3) & (key3 < KEYS_END);
    }
    if 0 < key3 {
        return false;
    }
    if 2 < used {
        return (key0 <= key1) & (key1 <= key2) & (key2 < KEYS_END);
    }
    if 0 < key2 {
        return false;
    }
    if 1 < used {
        return (key0 <= key1) & (key1 < KEYS_END);
    }
    if 0 < key1 {
        return false;
    }
    if 0 < used {
        return key0 < KEYS_END;
    }
    key0 == 0
}

// Prints a run: reads an end moment (8 bytes) and a model file from standard input, and writes the lines of the run from the
// start to the end moment. What is written is the proved text of crate `run_text`, whole, for the whole input: of an input longer
// than the buffer the front is read, and its text is that of the whole.
#![tactic(auto)]

ghost use Rattle.std.specs.Prelude.{◌≤◌, length};

use little_endian::front;
use run_text::{INPUT_ROOM, TEXT_ROOM};
use std::io;

// How many bytes a reader gave before it ended or failed, at most as many as the buffer holds; they stand at its front.
fn read_full(reader: &mut impl io::Read, buffer: &mut [u8]) -> usize
    ensures { result ≤ length buffer.new }
{
    let mut n = 0;
    for _ in 0..buffer.len() {
        let Ok(more) = reader.read(&mut buffer[n..]) else {
            break;
        };
        if more == 0 {
            break;
        }
        n += more;
    }
    n
}

fn main(rt: HostRuntime) -> io::Result<()> {
    let mut input = [0u8; INPUT_ROOM];
    let n = read_full(&mut rt.stdin(), &mut input);
    let mut text = [0u8; TEXT_ROOM];
    let length = run_text::whole_text(&input, n, &mut text);
    io::Write::write_all(&mut rt.stdout(), front(&text, length))
}

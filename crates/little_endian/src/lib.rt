// Little-endian numbers in slices of bytes, and parts of slices; a byte past the end reads as 0, so that no reader asks anything.
#![tactic(auto)]

ghost use Rattle.std.specs.Prelude.{◌≡◌, ◌+◌, ◌≤◌, length, drop, take};
ghost use Rattle.std.proofs.lemmas.List.Edits.{sets};
ghost use Rattle.definition.specs.Bytes.{number_at, bytes_of};

// The rest of a slice from a position on; nothing past the end.
pub fn rest<'a>(s: &'a [u8], at: usize) -> &'a [u8]
    ensures { result.now ≡ drop at s.now }
{
    if at <= s.len() { &s[at..] } else { &s[..0] }
}

// The first n bytes of a slice, all of it where it is shorter.
pub fn front<'a>(s: &'a [u8], n: usize) -> &'a [u8]
    ensures { result.now ≡ take n s.now }
{
    if n <= s.len() { &s[..n] } else { &s[..] }
}

pub fn byte_at(s: &[u8], at: usize) -> u8
    ensures { result ≡ number_at 1 at s.now }
{
    if at < s.len() { s[at] } else { 0 }
}

// The number in the first n bytes, n at most 8.
fn number_of(s: &[u8], n: usize) -> u64
    requires { n ≤ 8 }
    ensures { result ≡ number_at n 0 s.now }
{
    let mut v: u64 = 0;
    for k in (0..n).rev() {
        v = v * 256 + byte_at(s, k) as u64;
    }
    v
}

// The number in n bytes from a position on, n at most 8.
fn number_at(s: &[u8], at: usize, n: usize) -> u64
    requires { n ≤ 8 }
    ensures { result ≡ number_at n at s.now }
{
    let t = rest(s, at);
    number_of(t, n)
}

// By width: each is one line over `number_at`, and a generic one would name the type at each call.
pub fn u16_at(s: &[u8], at: usize) -> u16
    ensures { result ≡ number_at 2 at s.now }
{
    number_at(s, at, 2) as u16
}

pub fn u32_at(s: &[u8], at: usize) -> u32
    ensures { result ≡ number_at 4 at s.now }
{
    number_at(s, at, 4) as u32
}

pub fn u64_at(s: &[u8], at: usize) -> u64
    ensures { result ≡ number_at 8 at s.now }
{
    number_at(s, at, 8)
}

// The same numbers where the bytes are known to be there, without a test; a number of 8 bytes is two halves of two halves, which the compiler makes
// one load.
pub fn u16_within(s: &[u8], at: usize) -> u16
    requires { at + 2 ≤ length s.now }
    ensures { result ≡ number_at 2 at s.now }
{
    s[at] as u16 + 256 * s[at + 1] as u16
}

fn u32_within(s: &[u8], at: usize) -> u32
    requires { at + 4 ≤ length s.now }
    ensures { result ≡ number_at 4 at s.now }
{
    u16_within(s, at) as u32 + 65536 * u16_within(s, at + 2) as u32
}

pub fn u64_within(s: &[u8], at: usize) -> u64
    requires { at + 8 ≤ length s.now }
    ensures { result ≡ number_at 8 at s.now }
{
    u32_within(s, at) as u64 + 4294967296 * u32_within(s, at + 4) as u64
}

// The low n bytes of v at `at`.
pub fn put_number(out: &mut [u8], at: usize, n: usize, v: u64)
    requires { at + n ≤ length out.old }
    ensures { out.new ≡ sets out.old at (bytes_of n v) }
{
    let mut w = v;
    for k in 0..n {
        out[at + k] = (w % 256) as u8;
        w = w / 256;
    }
}

// Bytes of one slice, put at a position of another. By a loop, and not by `copy_from_slice`, for which the compiled library would ask the program that
// it is linked into for memmove; it asks for memcpy and memset alone.
pub fn put_bytes(part: &[u8], out: &mut [u8], at: usize)
    requires { at + length part.now ≤ length out.old }
    ensures { out.new ≡ sets out.old at part.now }
{
    for i in 0..part.len() {
        out[at + i] = part[i];
    }
}

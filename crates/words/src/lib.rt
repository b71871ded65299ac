// Bytes and numbers at places of a slice, and signed 32-bit values as words in two's complement.
// It stands on no other code; every decoder and every evaluator reads through it. Contracts speak of
// the specification's numbers: bytes and words of a list, values as integers.
#![tactic(auto)]

ghost use Rattle.std.specs.Prelude.{not, ◌≡◌, ◌+◌, ◌*◌, ◌/◌, ◌%◌, ◌^◌, ◌≤◌, ◌<◌, eqb, leb, length, IfSome};
ghost use Rattle.std.specs.Int.Bits.{bit_and};
ghost use Rattle.std.proofs.lemmas.List.Edits.{sets};
ghost use Rattle.meaning.specs.Base.{bit};
ghost use Rattle.meaning.specs.Reading.{Parser, byte_within, number16, number32, many};
ghost use Rattle.meaning.specs.ByteLayouts.{bytes2, bytes4, comparison};
ghost use Rattle.meaning.specs.Values.{signed, agree as values_agree, compare as values_compare, plus as values_plus};
ghost use Rattle.words.specs.Words.{word16_at, word32_at, low32_at, low_bytes4, Peeked, read, end_of, sum_meant, Within};

// A byte as a number.
pub fn wide(x: u8) -> usize
    ensures { (result ≡ x) × (result < 256) }
{
    x as usize
}

// The byte of a small number.
pub fn low_byte(n: usize) -> u8
    ensures { n < 256 → result ≡ n }
{
    (n % 256) as u8
}

// The byte at a place, and 256 past the end, which no field admits: a look cannot fail, so it answers no `Option`.
pub fn byte(s: &[u8], at: usize) -> usize
    ensures { Peeked s.now at result }
{
    s.get(at).map_or(256, |&x| wide(x))
}

// Whether n bytes from a place on stand in the slice.
pub fn has(s: &[u8], at: usize, n: usize) -> bool
    ensures { result ≡ leb (at + n) (length s.now) }
{
    at.checked_add(n).is_some_and(|end| end <= s.len())
}

pub fn word16(s: &[u8], at: usize) -> usize
    requires { at + 2 ≤ length s.now }
    ensures { (result ≡ word16_at s.now at) × (result < 65536) }
{
    u16::from_be_bytes([s[at], s[at + 1]]) as usize
}

pub fn word32(s: &[u8], at: usize) -> u32
    requires { at + 4 ≤ length s.now }
    ensures { result ≡ word32_at s.now at }
{
    u32::from_be_bytes([s[at], s[at + 1], s[at + 2], s[at + 3]])
}

// What can be read at a place comes with the place after it; `None` is malformed.

// A byte in a range.
pub fn byte_within(s: &[u8], at: usize, low: u8, high: u8) -> Option<(usize, usize)>
    ensures reads { read result ≡ byte_within low high s.now at }
    ensures within { IfSome result (Within low high) }
{
    let x = *s.get(at)?;
    if x < low || high < x {
        return None;
    }
    Some((wide(x), at + 1))
}

// A number of two bytes.
pub fn number16(s: &[u8], at: usize) -> Option<(usize, usize)>
    ensures { read result ≡ number16 s.now at }
{
    if !has(s, at, 2) {
        return None;
    }
    Some((word16(s, at), at + 2))
}

// A number of four bytes.
pub fn number32(s: &[u8], at: usize) -> Option<(u32, usize)>
    ensures { read result ≡ number32 s.now at }
{
    if !has(s, at, 4) {
        return None;
    }
    Some((word32(s, at), at + 4))
}

// What stands one after another in a part: where one of them ends.
pub trait Layout {
    ghost Value: { Type 0 };

    ghost layout: { Self → Parser Value };

    fn end(&self, s: &[u8], at: usize) -> Option<usize>
        ensures { result ≡ end_of (layout self.now s.now at) };
}

// Where n of them end, each from where the one before it ends.
pub fn many_end<L: Layout>(layout: &L, s: &[u8], at: usize, n: usize) -> Option<usize>
    ensures { result ≡ end_of (many n (L.layout layout.now) s.now at) }
{
    let mut here = at;
    for _ in 0..n {
        here = layout.end(s, here)?;
    }
    Some(here)
}

pub fn put16(s: &mut [u8], at: usize, v: usize)
    requires { at + 2 ≤ length s.old }
    ensures { s.new ≡ sets s.old at (bytes2 v) }
{
    let low = (v % 65536) as u16;
    s[at..at + 2].copy_from_slice(&low.to_be_bytes());
}

pub fn put32(s: &mut [u8], at: usize, v: u32)
    requires { at + 4 ≤ length s.old }
    ensures { s.new ≡ sets s.old at (bytes4 v) }
{
    s[at..at + 4].copy_from_slice(&v.to_be_bytes());
}

// The same two with the low byte first: the words of the working room.
pub fn low32(s: &[u8], at: usize) -> u32
    requires { at + 4 ≤ length s.now }
    ensures { result ≡ low32_at s.now at }
{
    u32::from_le_bytes([s[at], s[at + 1], s[at + 2], s[at + 3]])
}

pub fn put_low32(s: &mut [u8], at: usize, v: u32)
    requires { at + 4 ≤ length s.old }
    ensures { s.new ≡ sets s.old at (low_bytes4 v) }
{
    s[at..at + 4].copy_from_slice(&v.to_le_bytes());
}

// Bit k of a mask, as 0 or 1.
pub fn bit_at(mask: usize, k: usize) -> usize
    requires { k < 64 }
    ensures { result ≡ mask / 2 ^ k % 2 }
{
    (mask >> k) % 2
}

// Whether a mask has bit k.
pub fn has_bit(mask: usize, k: usize) -> bool
    requires { k < 64 }
    ensures { result ≡ bit mask k }
{
    bit_at(mask, k) == 1
}

// Whether two masks have a bit in common.
pub fn meet(a: usize, b: usize) -> bool
    ensures { result ≡ not (eqb (bit_and a b) 0) }
{
    a & b != 0
}

pub fn agree(a: u32, b: u32) -> bool
    ensures { result ≡ values_agree (signed a) (signed b) }
{
    a == b
}

// The comparison with a number 0..5; above 5 it is the last, as in the specification. It takes every number, so `op` is no enum.
pub fn compare(op: usize, a: u32, b: u32) -> bool
    ensures { result ≡ values_compare (comparison op) (signed a) (signed b) }
{
    let x = a.cast_signed();
    let y = b.cast_signed();
    match op {
        0 => x == y,
        1 => x != y,
        2 => x < y,
        3 => x <= y,
        4 => y < x,
        _ => y <= x,
    }
}

// The word of a sum, unless it leaves 32 bits.
pub fn plus(a: u32, b: u32) -> Option<u32>
    ensures { sum_meant result ≡ values_plus (signed a) (signed b) }
{
    let sum = a.cast_signed().checked_add(b.cast_signed())?;
    Some(sum.cast_unsigned())
}

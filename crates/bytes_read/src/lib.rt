// Numbers in bytes, parts of bytes, and bytes compared. What writes bytes stands in the crate `bytes_write`.
// Every public function takes any bytes and any numbers: a byte past the end reads as 0.
#![tactic(auto)]

ghost use Rattle.std.specs.Prelude.{ℕ, ◌≡◌, ◌+◌, ◌<◌, min, length, drop, get_or};
ghost use Rattle.bytes_read.specs.Number.{be, le};
ghost use Rattle.bytes_read.specs.Bytes.{part_of, eq_bytes};
ghost use Rattle.bytes_read.specs.Printable.{printable_prefix};

use std::array;

// The lesser of two numbers.
pub fn smaller(a: usize, b: usize) -> usize
    ensures { result ≡ min a b }
{
    a.min(b)
}

// The byte at `at`.
pub fn byte(s: &[u8], at: usize) -> u8
    ensures value { result ≡ get_or s.now at 0 }
    ensures kept { s.exit.now ≡ s.entry.now }
{
    s.get(at).copied().unwrap_or(0)
}

// The N bytes at `at`. Where all of them stand there the compiler makes one load of it; else they are read one by one, into no memory of their own, so that a
// number that nobody asks for costs nothing.
fn bytes<const N: usize>(s: &[u8], at: usize) -> [u8; N]
    ensures { (k : ℕ) → k < N → get_or result k 0 ≡ get_or s.now (at + k) 0 }
{
    let from = rest(s, at);
    if let Some(all) = from.first_chunk() {
        return *all;
    }
    array::from_fn(|k| byte(from, k))
}

// The little-endian 16-bit number at `at`. One public name for each width and order, as docs/FUNCTIONS.md has them; what they share is `bytes`.
pub fn le16(s: &[u8], at: usize) -> u16
    ensures value { result ≡ le 2 s.now at }
    ensures kept { s.exit.now ≡ s.entry.now }
{
    u16::from_le_bytes(bytes(s, at))
}

// The little-endian 32-bit number at `at`.
pub fn le32(s: &[u8], at: usize) -> u32
    ensures value { result ≡ le 4 s.now at }
    ensures kept { s.exit.now ≡ s.entry.now }
{
    u32::from_le_bytes(bytes(s, at))
}

// The little-endian 64-bit number at `at`.
pub fn le64(s: &[u8], at: usize) -> u64
    ensures value { result ≡ le 8 s.now at }
    ensures kept { s.exit.now ≡ s.entry.now }
{
    u64::from_le_bytes(bytes(s, at))
}

// The big-endian 32-bit number at `at`.
pub fn be32(s: &[u8], at: usize) -> u32
    ensures value { result ≡ be 4 s.now at }
    ensures kept { s.exit.now ≡ s.entry.now }
{
    u32::from_be_bytes(bytes(s, at))
}

// The big-endian 64-bit number at `at`.
pub fn be64(s: &[u8], at: usize) -> u64
    ensures value { result ≡ be 8 s.now at }
    ensures kept { s.exit.now ≡ s.entry.now }
{
    u64::from_be_bytes(bytes(s, at))
}

// The n bytes from `at` on, as a part of s; empty where they do not fit.
pub fn part(s: &[u8], at: usize, n: usize) -> &[u8]
    ensures result_value { result.now ≡ part_of s.now at n }
    ensures kept { s.exit.now ≡ s.entry.now }
{
    rest(s, at).get(..n).unwrap_or(&[])
}

// The bytes from `at` on, as a part of s; empty past the end.
pub fn rest(s: &[u8], at: usize) -> &[u8]
    ensures result_value { result.now ≡ drop at s.now }
    ensures kept { s.exit.now ≡ s.entry.now }
{
    s.get(at..).unwrap_or(&[])
}

// The two hold the same bytes. They are compared from the last byte on: names that differ mostly begin alike. It is short, and is compiled into the
// lookups.
pub fn equal(a: &[u8], b: &[u8]) -> bool
    ensures value { result ≡ eq_bytes a.now b.now }
    ensures kept { (a.exit.now ≡ a.entry.now) × (b.exit.now ≡ b.entry.now) }
{
    a.len() == b.len() && a.iter().rev().zip(b.iter().rev()).all(|(x, y)| x == y)
}

// The same, for bytes that are long and agree for the most part. Eight are compared at a time, as one number, the last eight first. The library's `==` of two
// slices compares more at a time, but by a call, which names that differ in their first bytes do not repay.
pub fn equal_by_words(a: &[u8], b: &[u8]) -> bool
    ensures value { result ≡ eq_bytes a.now b.now }
    ensures kept { (a.exit.now ≡ a.entry.now) × (b.exit.now ≡ b.entry.now) }
{
    if a.len() != b.len() || a.last_chunk::<8>() != b.last_chunk::<8>() {
        return false;
    }
    let mut left = a;
    let mut right = b;
    while let Some((x, after)) = left.split_first_chunk::<8>() {
        let Some((y, behind)) = right.split_first_chunk::<8>() else {
            return false;
        };
        if x != y {
            return false;
        }
        left = after;
        right = behind;
    }
    equal(left, right)
}

// How many bytes of 0x21 to 0x7E the bytes begin with, counted up to `most`.
pub fn printable_prefix(s: &[u8], most: usize) -> usize
    ensures value { result ≡ min most (length (printable_prefix s.now)) }
    ensures kept { s.exit.now ≡ s.entry.now }
{
    s.iter()
        .take(most)
        .take_while(|b| b.is_ascii_graphic())
        .count()
}

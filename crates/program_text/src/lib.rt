// Text gathered on a lent page, of which the first `used` bytes are in use: bytes as they are, bytes in hexadecimal, and a component's type.
// Every function takes any page and any numbers: text that does not fit is not written, and not counted.
#![tactic(auto)]

ghost use Rattle.std.specs.Prelude.{◌≡◌, ◌<◌, ◌-◌, ◌*◌, ◌/◌, ◌%◌, ◌^◌, length};
ghost use Rattle.bytes_read.specs.Bytes.{written};
ghost use Rattle.program_text.specs.Page.{used_after};
ghost use Rattle.program_text.specs.Digits.{digit_of, hex_pairs, hex_of, type_digits};

use std::array;

// The bytes as they are. Answers how much of the page is in use then.
#[tactic(auto, unfolding(crate::specs::Page::used_after))]
pub fn put(page: &mut [u8], used: usize, s: &[u8]) -> usize
    ensures value { result ≡ used_after page.old used (length s.now) }
    ensures bytes { page.new ≡ written page.old used s.now }
    ensures kept { s.exit.now ≡ s.entry.now }
{
    if bytes_write::copy(page, used, s) {
        used + s.len()
    } else {
        used
    }
}

// The last digit of n; the letters begin at `ten`, an ASCII code.
fn digit(n: u32, ten: u8) -> u8
    requires { ten < 128 }
    ensures { result ≡ digit_of ten (n % 16) }
{
    let d = (n % 16) as u8;
    if d < 10 { b'0' + d } else { ten + (d - 10) }
}

// Overwrites the whole of dst, which is twice as long as s, with two lower-case digits a byte.
fn fill_hex_pairs(dst: &mut [u8], s: &[u8])
    requires { length dst.old ≡ 2 * length s.now }
    ensures { dst.new ≡ hex_pairs s.now }
{
    for (i, b) in s.iter().enumerate() {
        let b = u32::from(*b);
        dst[2 * i] = digit(b / 16, b'a');
        dst[2 * i + 1] = digit(b, b'a');
    }
}

// The bytes in lower-case hexadecimal, or `-` for none. Answers how much of the page is in use then.
#[tactic(auto, unfolding(crate::specs::Page::used_after), using(crate::proofs::Laws::hex_text))]
pub fn hex(page: &mut [u8], used: usize, s: &[u8]) -> usize
    ensures value { result ≡ used_after page.old used (length (hex_of s.now)) }
    ensures bytes { page.new ≡ written page.old used (hex_of s.now) }
    ensures kept { s.exit.now ≡ s.entry.now }
{
    if s.is_empty() {
        return put(page, used, b"-");
    }
    let n = 2 * s.len();
    if !bytes_write::has_room(page, used, n) {
        return used;
    }
    fill_hex_pairs(&mut page[used..used + n], s);
    used + n
}

// The k-th of the eight digits of a component's type, from the highest on.
fn type_digit(kind: u32, k: usize) -> u8
    requires { k < 8 }
    ensures { result ≡ digit_of 65 (kind / 2 ^ (28 - 4 * k) % 16) }
{
    digit(kind >> (28 - 4 * k), b'A')
}

// A component's type as eight upper-case hexadecimal digits.
pub fn type_digits(kind: u32) -> [u8; 8]
    ensures { result ≡ type_digits kind }
{
    array::from_fn(|k| type_digit(kind, k))
}

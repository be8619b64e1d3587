// A CBFS component: the magic, the header's judge, and names (document 01, "Components and the two walks").
// A part is what begins at a component's place and goes up to the region's end.
#![tactic(auto)]

ghost use Rattle.std.specs.Prelude.{◌≡◌, ◌+◌, ◌%◌};
ghost use Rattle.bytes_read.specs.Tests.{all};
ghost use Rattle.component.specs.Names.{is_zero, name_fits, name_length};
ghost use Rattle.component.specs.Sums.{total, checksum_byte_sum, checksum_matches};
ghost use Rattle.component.specs.Component.{starts_with_magic, judge_numbers, judge_after_magic, judge as judge_of};
ghost use Rattle.component.specs.Component.{judged, name_of, content_of, bears_name};

use cbfs_types::{FIELD_UNIT, HEADER_LEN, Header, NAME_MAX, OFFSET_MAX, OFFSET_MIN};

// The part begins with the magic. The eight bytes are compared as one number: one comparison, where a loop makes eight. Little-endian, the
// processor's own order, it is one load too, and the search stays small enough to be compiled into each walk.
pub fn starts_with_magic(s: &[u8]) -> bool
    ensures value { result ≡ starts_with_magic s.now }
    ensures kept { s.exit.now ≡ s.entry.now }
{
    if s.len() < 8 {
        return false;
    }
    bytes_read::le64(s, 0) == bytes_read::le64(b"LARCHIVE", 0)
}

// Every byte is zero.
fn all_zero(f: &[u8]) -> bool
    ensures { result ≡ all is_zero f.now }
{
    f.iter().all(|b| *b == 0)
}

// The bytes are a fit name.
#[tactic(auto, unfolding(crate::specs::Names::name_fits, crate::specs::Names::name_tests))]
pub fn name_fits(name: &[u8]) -> bool
    ensures value { result ≡ name_fits name.now }
    ensures kept { name.exit.now ≡ name.entry.now }
{
    1 <= name.len()
        && name.len() <= NAME_MAX
        && bytes_read::printable_prefix(name, name.len()) == name.len()
}

// The length of the name in a name field, or 0 where the field is unfit. Each byte is read once.
pub fn name_length(f: &[u8]) -> usize
    ensures value { result ≡ name_length f.now }
    ensures kept { f.exit.now ≡ f.entry.now }
{
    let n = bytes_read::printable_prefix(f, f.len());
    if NAME_MAX < n {
        return 0;
    }
    if f.len() <= n {
        return 0;
    }
    if !all_zero(&f[n..]) {
        return 0;
    }
    n
}

// The sum of some bytes, as a 32-bit number, one by one.
fn sum_each(s: &[u8]) -> u32
    ensures { result ≡ total s.now % 4294967296 }
{
    let mut t = 0u32;
    for b in s {
        t = t.wrapping_add(u32::from(*b));
    }
    t
}

// How many bytes are summed at a time.
const SUM_BLOCK: usize = 64;

// The sum of all bytes, as a 32-bit number. In blocks of a known length, so that the compiler adds sixteen by one instruction; what is left is at hand
// behind the loop.
pub fn sum(s: &[u8]) -> u32
    ensures value { result ≡ total s.now % 4294967296 }
    ensures kept { s.exit.now ≡ s.entry.now }
{
    let mut t = 0u32;
    let mut rest = s;
    while let Some((block, after)) = rest.split_first_chunk::<SUM_BLOCK>() {
        t = t.wrapping_add(sum_each(block));
        rest = after;
    }
    t.wrapping_add(sum_each(rest))
}

// The sum of the four checksum bytes.
fn checksum_byte_sum(s: &[u8]) -> u32
    ensures { result ≡ checksum_byte_sum s.now }
{
    u32::from(bytes_read::byte(s, 16))
        + u32::from(bytes_read::byte(s, 17))
        + u32::from(bytes_read::byte(s, 18))
        + u32::from(bytes_read::byte(s, 19))
}

// The span states no sum, or the right one. Where it states none, no byte is summed. Its own four bytes are added to the stated sum and not left out
// of the other, so that the span is summed in one go.
pub fn checksum_matches(s: &[u8]) -> bool
    ensures value { result ≡ checksum_matches s.now }
    ensures kept { s.exit.now ≡ s.entry.now }
{
    let stated = bytes_read::be32(s, 16);
    if stated == 0 {
        return true;
    }
    sum(s) == stated.wrapping_add(checksum_byte_sum(s))
}

// The header's numbers and its name field alone, for a part that is known to begin with the magic. The sum is not looked at.
pub fn judge_numbers(s: &[u8]) -> Option<Header>
    ensures value { result ≡ judged (judge_numbers s.now) }
    ensures kept { s.exit.now ≡ s.entry.now }
{
    if s.len() < HEADER_LEN {
        return None;
    }
    let offset = bytes_read::be32(s, 20) as usize;
    let len = bytes_read::be32(s, 8) as usize;
    let kind = bytes_read::be32(s, 12);
    let checksum = bytes_read::be32(s, 16);
    if offset < OFFSET_MIN {
        return None;
    }
    if OFFSET_MAX < offset {
        return None;
    }
    if (offset - HEADER_LEN) % FIELD_UNIT != 0 {
        return None;
    }
    if s.len() < offset + len {
        return None;
    }
    let namelen = name_length(&s[HEADER_LEN..offset]);
    if namelen == 0 {
        return None;
    }
    Some(Header {
        offset,
        len,
        kind,
        checksum,
        namelen,
    })
}

// The header's fields alone, for a part that is known to begin with the magic: its numbers, then its sum.
pub fn judge_after_magic(s: &[u8]) -> Option<Header>
    ensures value { result ≡ judged (judge_after_magic s.now) }
    ensures kept { s.exit.now ≡ s.entry.now }
{
    let h = judge_numbers(s)?;
    let n = h.offset + h.len;
    if checksum_matches(&s[..n]) {
        return Some(h);
    }
    None
}

// The component that stands at the start of the part, if one does.
pub fn judge(s: &[u8]) -> Option<Header>
    ensures value { result ≡ judged (judge_of s.now) }
    ensures kept { s.exit.now ≡ s.entry.now }
{
    if !starts_with_magic(s) {
        return None;
    }
    judge_after_magic(s)
}

// The name of the component that stands at the start of the part; empty where none does.
pub fn name(s: &[u8]) -> &[u8]
    ensures result_value { result.now ≡ name_of (judge_of s.now) }
    ensures kept { s.exit.now ≡ s.entry.now }
{
    match judge(s) {
        Some(h) => bytes_read::part(s, HEADER_LEN, h.namelen),
        None => &s[0..0],
    }
}

// The same by the header's numbers alone, where a component is known to stand: its span is not summed again.
pub fn name_by_numbers(s: &[u8]) -> &[u8]
    ensures result_value { result.now ≡ name_of (judge_numbers s.now) }
    ensures kept { s.exit.now ≡ s.entry.now }
{
    let Some(h) = judge_numbers(s) else {
        return &s[0..0];
    };
    bytes_read::part(s, HEADER_LEN, h.namelen)
}

// The component that stands at the start of the part, by its header's numbers, bears the name: its sum was taken already. Where the name field does
// not begin with the name and a zero, the numbers are not judged; the zero is tested first, since one byte rules out most names of another length.
// No component's name is longer than 255 bytes, and no longer one is compared.
pub fn is_named(s: &[u8], name: &[u8]) -> bool
    ensures value { result ≡ bears_name name.now (judge_numbers s.now) }
    ensures kept { (s.exit.now ≡ s.entry.now) × (name.exit.now ≡ name.entry.now) }
{
    let asked = name.len();
    if NAME_MAX < asked {
        return false;
    }
    if bytes_read::byte(s, HEADER_LEN + asked) != 0 {
        return false;
    }
    let field = s.get(HEADER_LEN..HEADER_LEN + asked).unwrap_or(&[]);
    if !bytes_read::equal_by_words(field, name) {
        return false;
    }
    match judge_numbers(s) {
        Some(h) => h.namelen == asked,
        None => false,
    }
}

// The content of the component that stands at the start of the part; empty where none does.
pub fn content(s: &[u8]) -> &[u8]
    ensures result_value { result.now ≡ content_of (judge_of s.now) }
    ensures kept { s.exit.now ≡ s.entry.now }
{
    match judge(s) {
        Some(h) => bytes_read::part(s, h.offset, h.len),
        None => &s[0..0],
    }
}

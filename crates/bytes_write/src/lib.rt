// Bytes copied and filled, and numbers written in bytes. Every function takes any bytes and any numbers: a write that does not fit writes nothing.
#![tactic(auto)]

ghost use Rattle.std.specs.Prelude.{◌≡◌, length, replicate};
ghost use Rattle.bytes_read.specs.Number.{be_bytes};
ghost use Rattle.bytes_read.specs.Bytes.{fits, written};

// n bytes from `at` on lie within dst.
pub fn has_room(dst: &[u8], at: usize, n: usize) -> bool
    ensures value { result ≡ fits dst.now at n }
    ensures kept { dst.exit.now ≡ dst.entry.now }
{
    n <= dst.len() && at <= dst.len() - n
}

// Overwrites the whole of dst with the bytes of src, which is as long. The library's `copy_from_slice` would call `memmove`, which no other call needs, and a
// caller in C would have to bring it.
fn copy_all(dst: &mut [u8], src: &[u8])
    requires { length dst.old ≡ length src.now }
    ensures { dst.new ≡ src.now }
{
    for (i, b) in src.iter().enumerate() {
        dst[i] = *b;
    }
}

// Overwrites the bytes of dst from `at` on with those of src, and says whether they fit.
pub fn copy(dst: &mut [u8], at: usize, src: &[u8]) -> bool
    ensures value { result ≡ fits dst.old at (length src.now) }
    ensures bytes { dst.new ≡ written dst.old at src.now }
    ensures kept { src.exit.now ≡ src.entry.now }
{
    if !has_room(dst, at, src.len()) {
        return false;
    }
    copy_all(&mut dst[at..at + src.len()], src);
    true
}

// Overwrites the n bytes of dst from `at` on with v, and says whether they fit.
pub fn fill(dst: &mut [u8], at: usize, n: usize, v: u8) -> bool
    ensures value { result ≡ fits dst.old at n }
    ensures bytes { dst.new ≡ written dst.old at (replicate n v) }
{
    if !has_room(dst, at, n) {
        return false;
    }
    dst[at..at + n].fill(v);
    true
}

// Overwrites the four bytes of dst from `at` on with v, big-endian, and says whether they fit.
pub fn put_be32(dst: &mut [u8], at: usize, v: u32) -> bool
    ensures value { result ≡ fits dst.old at 4 }
    ensures bytes { dst.new ≡ written dst.old at (be_bytes 4 v) }
{
    copy(dst, at, &v.to_be_bytes())
}

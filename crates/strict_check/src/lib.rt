// The strict check and its directory (document 01, "Components and the two walks"; refusals 12, 13 and 11).
#![tactic(auto)]

ghost use Rattle.std.specs.Prelude.{◌≡◌, ◌++◌, map, true, ℕ, ◌+◌, ◌-◌, ◌*◌, ◌≤◌, ◌<◌, length, take, drop, get_or, set, replicate, eqb};
ghost use Rattle.bytes_read.specs.Lists.{any};
ghost use Rattle.region.specs.Region.{region_bytes};
ghost use Rattle.strict_rules.specs.Strict.{component_limit, verdict};
ghost use Rattle.strict_check.specs.StrictCheck.{directory_answer, check_summary, verdict_in, stored_places, IsStored, Scanned};
ghost use Rattle.strict_check.specs.StrictCheck.{name_by_numbers, hash_step, digest_of, NameDigests, has_name, distinct_names_at, repeated_after, Marked};
ghost use Rattle.strict_check.specs.StrictCheck.{AllMarked};

use cbfs_types::{COMPONENTS_MAX, Directory, HEADER_LEN, Refusal, Region};
use region::refusal_by;

// Stores v at n, where d has such a place.
fn store_at(d: &mut [usize], n: usize, v: usize)
    ensures { d.new ≡ set d.old n v }
{
    if n < d.len() {
        d[n] = v;
    }
}

// A digest taken one word of eight bytes further. It is arithmetic by its definition, of 64 bits whose lower 32 are kept: `as` asks that the number fits.
fn hash_step(h: u32, w: u64) -> u32
    ensures { result ≡ hash_step h w }
{
    ((h as u64 * 961 + w % 4294967296 * 31 + w / 4294967296) % 4294967296) as u32
}

// Two words further, each as its two halves. One multiplication of h, where `hash_step` twice has two one after the other.
fn hash_two_steps(h: u32, a: u32, b: u32, c: u32, d: u32) -> u32
    ensures { result ≡ hash_step (hash_step h (a + b * 4294967296)) (c + d * 4294967296) }
{
    ((h as u64 * 923521 + (a as u64 * 31 + b as u64) * 961 + c as u64 * 31 + d as u64)
        % 4294967296) as u32
}

// The digest of a name. Names with different digests differ, so that most names are distinguished by one number, and their bytes are not read again.
// The halves of a word are read one by one, so that the compiler makes one load of each. The loop takes words off the front, and what is left is at hand
// behind it: over `chunks_exact` the rest would be asked for once more, which is no plainer.
fn digest(s: &[u8]) -> u32
    ensures { result ≡ digest_of s.now }
{
    let mut h = 0u32;
    let mut rest = s;
    while let Some((w, after)) = rest.split_first_chunk::<16>() {
        h = hash_two_steps(
            h,
            bytes_read::le32(w, 0),
            bytes_read::le32(w, 4),
            bytes_read::le32(w, 8),
            bytes_read::le32(w, 12),
        );
        rest = after;
    }
    if let Some((w, after)) = rest.split_first_chunk::<8>() {
        h = hash_step(h, bytes_read::le64(w, 0));
        rest = after;
    }
    hash_step(h, bytes_read::le64(rest, 0))
}

// Stores the digest of a name at n, where d has such a place.
fn store_digest(d: &mut [u32], n: usize, name: &[u8])
    ensures { d.new ≡ set d.old n (digest_of name.now) }
{
    if n < d.len() {
        d[n] = digest(name);
    }
}

// One pass over the region's bytes: how many components there are, or, as the error, the lowest place with the magic that the plain walk does not take,
// where the pass ends. The places of as many components as the arrays have room for, and the digests of their names, are stored as it goes. Each place is
// compared with the magic once, and each header judged once. The sum is taken before a later magic is looked for: it decides which of the two places is
// reported. The loop stays a `while`: the next place comes from what stands at this one.
fn scan_region(
    r: &[u8],
    align: usize,
    places: &mut [usize],
    digests: &mut [u32],
) -> Result<usize, usize>
    ensures { Scanned r.now align places.old places.new digests.old digests.new result }
{
    let mut n = 0;
    let mut p = walk::next_magic(r, align, 0, r.len());
    while p < r.len() {
        let Some(h) = component::judge_numbers(&r[p..]) else {
            return Err(p);
        };
        let e = p + (h.offset + h.len);
        if !component::checksum_matches(&r[p..e]) {
            return Err(p);
        }
        let q = walk::next_magic_after(r, align, p, e);
        if q < e {
            return Err(q);
        }
        store_at(places, n, p);
        store_digest(
            digests,
            n,
            bytes_read::part(bytes_read::rest(r, p), HEADER_LEN, h.namelen),
        );
        n += 1;
        p = walk::next_magic(r, align, walk::next_place(r, align, e), r.len());
    }
    Ok(n)
}

// The name of the component at p.
fn name_at_by_numbers(r: &[u8], p: usize) -> &[u8]
    ensures { result.now ≡ name_by_numbers r.now p }
{
    component::name_by_numbers(bytes_read::rest(r, p))
}

// The component at p bears the name. `there` and `asked` are the digests of its own name and of this one: only where they agree are the bytes compared.
fn has_name(r: &[u8], p: usize, there: u32, name: &[u8], asked: u32) -> bool
    requires { (there ≡ digest_of (name_by_numbers r.now p)) × (asked ≡ digest_of name.now) }
    ensures { result ≡ has_name r.now name.now p }
{
    there == asked && component::is_named(bytes_read::rest(r, p), name)
}

// Marks a digest, and says whether the same may have been marked before. It has one of the 2,048 bytes and one of 254 marks.
fn mark_digest(marks: &mut [u8], d: u32) -> bool
    requires { length marks.old ≡ 2048 }
    ensures { Marked marks.old marks.new d result }
{
    let product = d.wrapping_mul(2654435761);
    let at = (product / 2097152) as usize;
    let mark = (1 + product / 8192 % 254) as u8;
    let was = marks[at];
    if was == mark {
        return true;
    }
    if was == 0 {
        marks[at] = mark;
        return false;
    }
    marks[at] = 255;
    was == 255
}

// The names of the components at the first `count` places of a region, each with its digest. The places are lent by the caller, and the digests are compared
// several at once, so the two stay arrays of their own.
#[derive(Clone, Copy)]
struct NameTable<'a> {
    r: &'a [u8],
    places: &'a [usize],
    digests: &'a [u32],
    count: usize,
    ghost known: { NameDigests r.now places.now count digests.now },
}

impl<'a> NameTable<'a> {
    // One of the digests from `from` on is `asked`. The loop goes on where one is found, so that the compiler can compare several at once.
    fn digest_among(&self, from: usize, asked: u32) -> bool
        requires { from ≤ self.now.count }
        ensures { result ≡ any (λ d. eqb d asked) (take (self.now.count - from) (drop from self.now.digests.now)) }
    {
        let mut found = false;
        for d in &self.digests[from..self.count] {
            if *d == asked {
                found = true;
            }
        }
        found
    }

    // One of the components from the one numbered `from` on bears the name, whose digest is `asked`.
    fn any_named(&self, from: usize, name: &[u8], asked: u32) -> bool
        requires { (from ≤ self.now.count) × (asked ≡ digest_of name.now) }
        ensures { result ≡ any (has_name self.now.r.now name.now) (take (self.now.count - from) (drop from self.now.places.now)) }
    {
        for k in from..self.count {
            if has_name(self.r, self.places[k], self.digests[k], name, asked) {
                return true;
            }
        }
        false
    }

    // One of the components from the one numbered `from` on has the name of the component at p, whose digest is `asked`.
    // That name is read again only where a digest agrees.
    fn name_among(&self, from: usize, p: usize, asked: u32) -> bool
        requires { (from ≤ self.now.count) × (asked ≡ digest_of (name_by_numbers self.now.r.now p)) }
        ensures { result ≡ any (has_name self.now.r.now (name_by_numbers self.now.r.now p)) (take (self.now.count - from) (drop from self.now.places.now)) }
    {
        self.digest_among(from, asked) && self.any_named(from, name_at_by_numbers(self.r, p), asked)
    }

    // One of the components after the i-th has the i-th one's name. Their digests have been marked in the marks, and this one is now.
    fn repeated_after(&self, marks: &mut [u8], i: usize) -> bool
        requires { (i < self.now.count) × (length marks.old ≡ 2048) × AllMarked marks.old self.now.digests.now (i + 1) self.now.count }
        ensures value { result ≡ repeated_after self.now.r.now self.now.places.now i self.now.count }
        ensures marked { AllMarked marks.new self.now.digests.now i self.now.count }
    {
        let asked = self.digests[i];
        mark_digest(marks, asked) && self.name_among(i + 1, self.places[i], asked)
    }

    // No two of the components have the same name. From the last one down, each is compared with the later ones only where its digest may have been
    // among theirs.
    fn distinct(&self) -> bool
        ensures { result ≡ distinct_names_at self.now.r.now (take self.now.count self.now.places.now) }
    {
        let mut marks = [0u8; 2048];
        for i in (0..self.count).rev() {
            if self.repeated_after(&mut marks, i) {
                return false;
            }
        }
        true
    }
}

// Adds `start` to the first n places, which are then counted from there.
fn add_start(start: usize, d: &mut [usize], n: usize)
    requires { (n ≤ length d.old) × ((k : ℕ) → k < n → start + get_or d.old k 0 ≤ 18446744073709551615) }
    ensures { d.new ≡ map (λ p. start + p) (take n d.old) ++ drop n d.old }
{
    for p in &mut d[..n] {
        *p += start;
    }
}

// The strict check of a region, of as many components as the lent array has room for, and of COMPONENTS_MAX at most: how many there are. Where it accepts,
// their places stand first in the array, counted from the region's start; where it refuses, the array holds what the pass has stored.
fn check_region(image: &[u8], region: Region, places: &mut [usize]) -> Result<usize, Refusal>
    ensures value { result ≡ check_summary region.start (verdict_in places.old image.now region) }
    ensures stored { IsStored places.old places.new (verdict_in places.old image.now region) }
{
    let most = places.len().min(COMPONENTS_MAX);
    let r = region::bytes(image, region);
    let mut digests = [0u32; COMPONENTS_MAX];
    match scan_region(r, region.align, places, &mut digests) {
        Err(place) => Err(Refusal {
            number: 12,
            place: region.start + place,
        }),
        Ok(n) => {
            if most < n {
                return Err(refusal_by(13));
            }
            let names = NameTable {
                r,
                places,
                digests: &digests,
                count: n,
            };
            if !names.distinct() {
                return Err(refusal_by(11));
            }
            Ok(n)
        }
    }
}

// The same; where it refuses, the array holds zeros.
pub fn check_into(image: &[u8], region: Region, places: &mut [usize]) -> Result<usize, Refusal>
    ensures value { result ≡ check_summary region.start (verdict_in places.old image.now region) }
    ensures stored { places.new ≡ stored_places places.old (verdict_in places.old image.now region) }
    ensures kept { image.exit.now ≡ image.entry.now }
{
    let checked = check_region(image, region, places);
    if checked.is_err() {
        places.fill(0);
    }
    checked
}

// The strict check of a region: its directory, or refusal 12, 13 or 11. Inlined, so that the stack holds no second copy of the directory for a caller that
// reads its count alone.
#[inline(always)]
pub fn check(image: &[u8], region: Region) -> Result<Directory, Refusal>
    ensures value { result ≡ directory_answer component_limit region.start (verdict component_limit (region_bytes image.now region) region.align) }
    ensures kept { image.exit.now ≡ image.entry.now }
{
    let mut d = Directory {
        count: 0,
        places: [0; COMPONENTS_MAX],
    };
    let count = check_into(image, region, &mut d.places)?;
    add_start(region.start, &mut d.places, count);
    d.count = count;
    Ok(d)
}

// The listing program: an image of at most 65,536 bytes from standard input, listed by the plain walk (document 01, "Bench image A").
// The listing is gathered on a page and written once.
// The master header is read once, and the walk asked over its region, so that the program stands on few crates and is soon proved.
#![tactic(auto)]

ghost use Rattle.std.specs.Prelude.{◌≤◌, IfOk, length};

use cbfs_types::{Refusal, Region, Taken};
use itoa::Buffer;
use std::io;
use std::io::{Read, Stdin};

// The longest image that is listed.
const LISTED_MAX: usize = 65536;

// Room for any listing: a component takes 24 bytes of the image and more, and its line 22 and its name.
const PAGE_LEN: usize = 262144;

// A page, whose first `used` bytes are in use. The probe has one of its own, with other lines.
#[derive(Drop)]
struct Page {
    bytes: [u8; PAGE_LEN],
    used: usize,
    ghost within: { used ≤ length bytes },
}

impl Page {
    fn new() -> Page {
        Page {
            bytes: [0; PAGE_LEN],
            used: 0,
        }
    }

    #[tactic(auto, unfolding(program_text::specs::Page::used_after))]
    fn put(&mut self, s: &[u8]) {
        self.used = program_text::put(&mut self.bytes, self.used, s);
    }

    fn put_number(&mut self, n: usize) {
        let mut digits = Buffer::new();
        self.put(digits.format(n).as_bytes());
    }

    // A line of a word, with its tab, and a number.
    fn put_line(&mut self, word: &[u8], n: usize) {
        self.put(word);
        self.put_number(n);
        self.put(b"\n");
    }

    fn put_component(&mut self, name: &[u8], t: Taken) {
        self.put_number(t.place);
        self.put(b"\t");
        self.put(name);
        self.put(b"\t");
        self.put(&program_text::type_digits(t.header.kind));
        self.put(b"\t");
        self.put_number(t.header.len);
        self.put(b"\n");
    }

    // The whole listing from the region's start. An image has fewer components than bytes, so a turn always ends it; and no step
    // from where the last one left off is refused.
    fn put_listing(&mut self, image: &[u8], region: Region) {
        self.put(b"place\tname\ttype\tlength\n");
        let mut from = region.start;
        for count in 0..image.len() {
            let Ok(Some(t)) = region_read::step_in(false, image, region, from) else {
                return self.put_line(b"end\t", count);
            };
            self.put_component(region_read::name_at_in(image, region, t.place), t);
            from = t.next;
        }
    }

    fn write(&self, rt: &impl Print) -> io::Result<()> {
        rt.write_all(&self.bytes[..self.used])
    }
}

// The region to list; refusal 1 also where the image is too long to be listed.
fn region(image: &[u8]) -> Result<Region, Refusal> {
    if LISTED_MAX < image.len() {
        return Err(Refusal {
            number: 1,
            place: 0,
        });
    }
    master_header::read(image)
}

// Reads until `buf` is full or the input ends. Answers how many bytes it put at the start of `buf`: the library's `copy` says nothing of that for an input of
// the system, and so no more are answered than `buf` has.
fn read_full(stdin: Stdin, buf: &mut [u8]) -> io::Result<usize>
    ensures { IfOk result (λ n. n ≤ length buf.new) }
{
    let most = buf.len();
    let n = io::copy(&mut stdin.take(most as u64), &mut &mut buf[..])?;
    Ok(most.min(n as usize))
}

fn main(rt: HostRuntime) -> io::Result<()> {
    // One byte more than an image may have, to notice a longer one.
    let mut input = [0; LISTED_MAX + 1];
    let n = read_full(rt.stdin(), &mut input)?;
    let image = &input[..n];
    let mut page = Page::new();
    match region(image) {
        Ok(region) => page.put_listing(image, region),
        Err(r) => page.put_line(b"refused\t", r.number as usize),
    }
    page.write(&rt)
}

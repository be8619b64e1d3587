// The lines of an answer, gathered on a page.
ghost use Rattle.std.specs.Prelude.{◌≤◌, length};

use cbfs::Refusal;
use itoa::Buffer;
use std::io;

// Room for any answer. Each byte of a 65,536-byte image becomes at most two digits, and a component, which takes 40 bytes of it or more,
// adds at most 31 to its line: less than 182,000 bytes. A directory of 1,024 places takes 6 bytes for each, a map of 256 areas less than 32 for each.
const PAGE_LEN: usize = 262144;

// A page, whose first `used` bytes are in use. A word is what a line begins with; fields follow it, each after a tab.
#[derive(Drop)]
pub(crate) struct Page {
    bytes: [u8; PAGE_LEN],
    used: usize,
    ghost within: { used ≤ length bytes },
}

impl Page {
    pub(crate) fn new() -> Page {
        Page {
            bytes: [0; PAGE_LEN],
            used: 0,
        }
    }

    #[tactic(auto, unfolding(program_text::specs::Page::used_after))]
    fn put(&mut self, s: &[u8]) {
        self.used = program_text::put(&mut self.bytes, self.used, s);
    }

    // A decimal number.
    pub(crate) fn number(&mut self, n: usize) {
        let mut digits = Buffer::new();
        self.put(b"\t");
        self.put(digits.format(n).as_bytes());
    }

    // Bytes in hexadecimal.
    #[tactic(auto, unfolding(program_text::specs::Page::used_after))]
    pub(crate) fn hex(&mut self, s: &[u8]) {
        self.put(b"\t");
        self.used = program_text::hex(&mut self.bytes, self.used, s);
    }

    // The start of a line: a word and numbers.
    pub(crate) fn start(&mut self, word: &[u8], numbers: &[usize]) {
        self.put(word);
        for n in numbers {
            self.number(*n);
        }
    }

    pub(crate) fn end_line(&mut self) {
        self.put(b"\n");
    }

    // A whole line.
    pub(crate) fn line(&mut self, word: &[u8], numbers: &[usize]) {
        self.start(word, numbers);
        self.end_line();
    }

    // A refusal, and whether anything else in the answer is not zero or empty.
    pub(crate) fn refused(&mut self, r: Refusal, has_rest: bool) {
        self.line(
            b"refused",
            &[r.number as usize, r.place, usize::from(has_rest)],
        );
    }

    // Writes the answer, and clears the page for the next one.
    pub(crate) fn write(&mut self, rt: &impl Print) -> io::Result<()> {
        let used = self.used;
        self.used = 0;
        rt.write_all(&self.bytes[..used])
    }
}

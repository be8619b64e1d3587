// The test driver: cases on standard input, an answer to each on standard output. It holds no logic of its own.
// An operation is one function here, and one line of `answer`. Each writes to a page; a refusal ends it, with a line of its own.
#![tactic(auto)]

mod input;
mod output;

use cbfs::{Refusal, Region, Segment, Taken};
use fmap::Area;
use input::{Case, Room};
use output::Page;
use std::io;
use std::io::{ErrorKind, Read, Stdin};

// What ends a case: the call's refusal; a field that is cut short or over its limit, or an unknown operation; or an input that could not be read.
#[derive(Drop)]
enum Failure {
    Refused(Refusal),
    BadCase,
    Unread(io::Error),
}

impl From<Refusal> for Failure {
    fn from(r: Refusal) -> Failure {
        Failure::Refused(r)
    }
}

impl From<io::Error> for Failure {
    fn from(e: io::Error) -> Failure {
        match e.kind() {
            ErrorKind::UnexpectedEof => Failure::BadCase,
            _ => Failure::Unread(e),
        }
    }
}

// A word, and a component's place and type.
fn opening(page: &mut Page, word: &[u8], t: Taken) {
    page.start(word, &[t.place, t.header.kind as usize]);
}

// The same, and its name and content.
fn component(page: &mut Page, word: &[u8], image: &[u8], t: Taken) {
    opening(page, word, t);
    page.hex(cbfs::name_at(image, t.place));
    page.hex(cbfs::content_at(image, t.place));
}

// Operation m: the master header.
fn master_header(page: &mut Page, r: Region) {
    page.line(b"region", &[r.start, r.end, r.align]);
}

// Operations p and g: the listing by the steps of a walk. An image has fewer components than bytes, so a turn always ends it.
fn listing<F: Fn(&[u8], usize) -> Result<Option<Taken>, Refusal>>(
    page: &mut Page,
    image: &[u8],
    step: F,
) -> Result<(), Refusal>
    requires { F.IsAlwaysCallable step }
{
    let mut from = cbfs::region(image)?.start;
    for count in 0..image.len() {
        let Some(t) = step(image, from)? else {
            page.line(b"end", &[count]);
            break;
        };
        component(page, b"component", image, t);
        page.end_line();
        from = t.next;
    }
    Ok(())
}

// Operations i and j: one step.
fn one_step(page: &mut Page, image: &[u8], step: Option<Taken>) {
    match step {
        Some(t) => {
            component(page, b"taken", image, t);
            page.number(t.next);
            page.end_line();
        }
        None => page.line(b"none", &[]),
    }
}

// Operations l and k: what a lookup found, and the content that it gave, of which a refusal's line says whether there is any.
fn lookup(page: &mut Page, found: Result<Taken, Refusal>, content: &[u8]) {
    match found {
        Ok(t) => {
            opening(page, b"found", t);
            page.hex(content);
            page.end_line();
        }
        Err(r) => page.refused(r, !content.is_empty()),
    }
}

// Operations e and z: the numbers of what a lookup found.
fn find(page: &mut Page, t: Taken) {
    let h = t.header;
    page.line(
        b"found",
        &[
            t.place,
            h.offset,
            h.len,
            h.kind as usize,
            h.namelen,
            t.next,
            h.checksum as usize,
        ],
    );
}

// Operations u and v: a part of the image.
fn part(page: &mut Page, s: &[u8]) {
    page.start(b"part", &[]);
    page.hex(s);
    page.end_line();
}

// A number is not 0.
fn any_used(numbers: &[usize]) -> bool {
    numbers.iter().any(|n| *n != 0)
}

// The first n of the items, and whether any of the others is not zero throughout.
fn split_used<T, F: FnMut(&T) -> bool>(items: &[T], n: usize, is_used: F) -> (&[T], bool)
    requires { (f : F) (item : _) → F.pre f item }
{
    let (used, rest) = items.split_at(n.min(items.len()));
    (used, rest.iter().any(is_used))
}

// Operation c: the strict check. This call and the next ones are made where their answers are printed: a function pays at entry for the memory of all that it
// keeps, and `answer` is entered for every case.
fn strict_check(page: &mut Page, image: &[u8]) -> Result<(), Refusal> {
    let d = cbfs::strict_check(image)?;
    let (places, has_rest) = split_used(&d.places, d.count, |place| *place != 0);
    page.start(b"accepted", &[d.count, usize::from(has_rest)]);
    for place in places {
        page.number(*place);
    }
    page.end_line();
    Ok(())
}

// An area's numbers, as its line has them.
fn area_numbers(a: &Area) -> [usize; 4] {
    [a.offset, a.size, a.flags as usize, a.name]
}

// Operation f: the flash map.
fn flash_map(page: &mut Page, image: &[u8]) -> Result<(), Refusal> {
    let m = fmap::read(image)?;
    let (areas, has_rest) = split_used(&m.areas, m.count, |a| any_used(&area_numbers(a)));
    page.line(
        b"map",
        &[
            m.minor as usize,
            m.base as usize,
            m.count,
            usize::from(has_rest),
        ],
    );
    for a in areas {
        page.line(b"area", &area_numbers(a));
    }
    Ok(())
}

// Operation s: the stage plan of a name.
fn stage(page: &mut Page, image: &[u8], name: &[u8]) -> Result<(), Refusal> {
    let p = cbfs::stage(image, name)?;
    page.line(
        b"stage",
        &[
            p.compression as usize,
            p.entry as usize,
            p.load as usize,
            p.source,
            p.len,
            p.memlen,
        ],
    );
    Ok(())
}

// A segment's numbers, as its line has them.
fn segment_numbers(s: &Segment) -> [usize; 6] {
    [
        s.kind as usize,
        s.compression as usize,
        s.source,
        s.load as usize,
        s.len,
        s.memlen,
    ]
}

// Operation y: the payload plan of a name.
fn payload(page: &mut Page, image: &[u8], name: &[u8]) -> Result<(), Refusal> {
    let p = cbfs::payload(image, name)?;
    let (segments, has_rest) = split_used(&p.segments, p.count, |s| any_used(&segment_numbers(s)));
    page.line(b"payload", &[p.count, usize::from(has_rest)]);
    for s in segments {
        page.line(b"segment", &segment_numbers(s));
    }
    Ok(())
}

// Operations a, r and d: what an edit answered, and the whole image afterwards.
fn edited(page: &mut Page, done: Result<usize, Refusal>, image: &[u8]) {
    match done {
        Ok(place) => page.line(b"done", &[place]),
        Err(r) => page.refused(r, false),
    }
    page.start(b"image", &[]);
    page.hex(image);
    page.end_line();
}

// Writes the answer to a case; all but the line of a refusal that ends it.
fn answer(page: &mut Page, op: u8, case: Case) -> Result<(), Failure> {
    let Case {
        image,
        name,
        content,
        number,
    } = case;
    match op {
        b'm' => master_header(page, cbfs::region(image)?),
        b'p' => listing(page, image, cbfs::plain_step)?,
        b'g' => listing(page, image, cbfs::guarded_step)?,
        b'i' => one_step(page, image, cbfs::plain_step(image, number)?),
        b'j' => one_step(page, image, cbfs::guarded_step(image, number)?),
        b'l' => lookup(
            page,
            cbfs::plain_find(image, name),
            cbfs::plain_lookup(image, name),
        ),
        b'k' => lookup(
            page,
            cbfs::guarded_find(image, name),
            cbfs::guarded_lookup(image, name),
        ),
        b'e' => find(page, cbfs::plain_find(image, name)?),
        b'z' => find(page, cbfs::guarded_find(image, name)?),
        b'u' => part(page, cbfs::name_at(image, number)),
        b'v' => part(page, cbfs::content_at(image, number)),
        b'c' => strict_check(page, image)?,
        b's' => stage(page, image, name)?,
        b'y' => payload(page, image, name)?,
        b'f' => flash_map(page, image)?,
        b'a' => {
            let kind = (number % (1 << 32)) as u32;
            edited(page, cbfs::add(image, name, kind, content), image);
        }
        b'r' => edited(page, cbfs::replace(image, name, content), image),
        b'd' => edited(page, cbfs::remove(image, name), image),
        _ => return Err(Failure::BadCase),
    }
    Ok(())
}

// Reads what follows an operation, and answers it.
fn one_case(page: &mut Page, op: u8, stdin: &Stdin, room: &mut Room) -> Result<(), Failure> {
    let case = input::read_case(stdin, room)?;
    answer(page, op, case)
}

// Case after case, each behind its operation.
fn main(rt: HostRuntime) -> io::Result<()> {
    let mut room = Room::new();
    let mut page = Page::new();
    let stdin = rt.stdin();
    for op in (&stdin).bytes() {
        match one_case(&mut page, op?, &stdin, &mut room) {
            Ok(()) => {}
            Err(Failure::Refused(r)) => page.refused(r, false),
            Err(Failure::BadCase) => return rt.write_all(b"bad case\n"),
            Err(Failure::Unread(e)) => return Err(e),
        }
        page.write(&rt)?;
    }
    Ok(())
}

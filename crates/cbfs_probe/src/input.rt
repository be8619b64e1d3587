// The fields of a case, read from standard input.
use super::Failure;
use std::io;
use std::io::{Read, Stdin};

// Room for the bytes of a case: an image and a content, and a name, as long as they may be.
#[derive(Drop)]
pub(crate) struct Room {
    image: [u8; 65536],
    name: [u8; 1024],
    content: [u8; 65536],
}

impl Room {
    pub(crate) fn new() -> Room {
        Room {
            image: [0; 65536],
            name: [0; 1024],
            content: [0; 65536],
        }
    }
}

// What follows the operation.
pub(crate) struct Case<'a> {
    pub(crate) image: &'a mut [u8],
    pub(crate) name: &'a [u8],
    pub(crate) content: &'a [u8],
    pub(crate) number: usize,
}

// A field of bytes behind its length, at the start of `room`, which is as long as the field may be.
fn field<'a>(mut stdin: &Stdin, room: &'a mut [u8]) -> Result<&'a mut [u8], Failure> {
    let mut length = [0; 4];
    stdin.read_exact(&mut length)?;
    let n = u32::from_le_bytes(length) as usize;
    let field = room.get_mut(..n).ok_or(Failure::BadCase)?;
    stdin.read_exact(field)?;
    Ok(field)
}

// The fields after the operation. Nothing is read after one that is cut short or over its limit.
pub(crate) fn read_case<'a>(mut stdin: &Stdin, room: &'a mut Room) -> Result<Case<'a>, Failure> {
    let Room {
        image,
        name,
        content,
    } = room;
    let image = field(stdin, image)?;
    let name = field(stdin, name)?;
    let content = field(stdin, content)?;
    let mut number = [0; 8];
    stdin.read_exact(&mut number)?;
    Ok(Case {
        image,
        name,
        content,
        number: u64::from_le_bytes(number) as usize,
    })
}

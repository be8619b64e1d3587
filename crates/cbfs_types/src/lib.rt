// The types of all answers, and the numbers of the format under their names. Whoever calls `cbfs` or `fmap` lists this crate beside them, to take
// answers apart. A place is counted from the image's start, unless a comment says otherwise.
#![tactic(auto)]

// An image has IMAGE_MIN to IMAGE_MAX bytes.
pub const IMAGE_MIN: usize = 64;

pub const IMAGE_MAX: usize = 16777216;

// The master header (coreboot's `struct cbfs_header`): its magic, its version, and its length.
pub const CBFS_HEADER_MAGIC: u32 = 0x4F524243;

pub const CBFS_HEADER_VERSION1: u32 = 0x31313131;

pub const MASTER_HEADER_LEN: usize = 32;

// The header's address, which the image's last four bytes hold: byte L of an image of L bytes would lie at ADDRESS_END.
pub const ADDRESS_MIN: u32 = 0xFFFF0000;

pub const ADDRESS_MAX: u32 = 0xFFFFFFDC;

pub const ADDRESS_END: usize = 0x100000000;

// The alignments that the master header may state are the powers of two from ALIGN_MIN to ALIGN_MAX.
pub const ALIGN_MIN: u32 = 16;

pub const ALIGN_MAX: u32 = 65536;

// A component's header (coreboot's `struct cbfs_file`) without its name field, whose length is a multiple of FIELD_UNIT.
pub const HEADER_LEN: usize = 24;

pub const FIELD_UNIT: usize = 16;

// A component's offset, from its place to its content: the header and a name field of 16 to 256 bytes.
pub const OFFSET_MIN: usize = 40;

pub const OFFSET_MAX: usize = 280;

// The longest name, and the largest number that a header's len can state.
pub const NAME_MAX: usize = 255;

pub const LEN_MAX: usize = 0xFFFFFFFF;

// A byte of flash that holds nothing.
pub const ERASED: u8 = 0xFF;

// How many components a region may have.
pub const COMPONENTS_MAX: usize = 1024;

// The types of stages and payloads, as coreboot names them.
pub const CBFS_TYPE_LEGACY_STAGE: u32 = 0x10;

pub const CBFS_TYPE_SELF: u32 = 0x20;

// A stage's header (coreboot's `struct cbfs_stage`), and a record of a payload (`struct cbfs_payload_segment`).
pub const STAGE_HEADER_LEN: usize = 28;

pub const SEGMENT_LEN: usize = 28;

// The largest number of a compression: none, LZMA, LZ4.
pub const COMPRESSION_MAX: u32 = 2;

// How many segments a payload plan holds.
pub const SEGMENTS_MAX: usize = 16;

// The segment types: the bytes CODE, DATA, "BSS ", PARA and ENTR, little-endian.
pub const SEGMENT_CODE: u32 = 0x45444F43;

pub const SEGMENT_DATA: u32 = 0x41544144;

pub const SEGMENT_BSS: u32 = 0x20535342;

pub const SEGMENT_PARAMS: u32 = 0x41524150;

pub const SEGMENT_ENTRY: u32 = 0x52544E45;

// A flash map: what its signature's place is a multiple of, the lengths of its header (coreboot's `struct fmap`) and of an area (`struct fmap_area`), the
// length of a name's field, the longest name in it, the version, and how many areas there may be.
pub const FMAP_STRIDE: usize = 64;

pub const FMAP_HEADER_LEN: usize = 56;

pub const FMAP_AREA_LEN: usize = 42;

pub const FMAP_STRLEN: usize = 32;

pub const AREA_NAME_MAX: usize = 31;

pub const FMAP_VER_MAJOR: u8 = 1;

pub const AREAS_MAX: usize = 256;

// The bytes of an image from start up to end. Its places are the multiples of align, counted from start.
#[derive(Clone, Copy)]
pub struct Region {
    pub start: usize,
    pub end: usize,
    pub align: usize,
}

// A refusal: the error of every call. What a call gives stands in `Ok`. It is a number and no enum: document 01, the definitions and the theorems
// (`first_failed`, `RefusalHas`) speak of refusals by their numbers, and 36 names with a table back to them would be no plainer.
#[derive(Clone, Copy)]
pub struct Refusal {
    // the number, by the table in README.md
    pub number: u32,
    // for 12 the lowest place with the magic that the plain walk does not take; else 0
    pub place: usize,
}

// The numbers of a component's header. Any 32 bits may stand in the image as a type: an enum of the known ones would have to keep the others too.
#[derive(Clone, Copy)]
pub struct Header {
    // from the component's place to its content
    pub offset: usize,
    // the length of the content
    pub len: usize,
    // the component's type
    pub kind: u32,
    // the sum that is stated, or 0
    pub checksum: u32,
    // the length of the name
    pub namelen: usize,
}

// A component that a walk has taken, as it is answered.
#[derive(Clone, Copy)]
pub struct Taken {
    pub place: usize,
    pub header: Header,
    // the number to go on from: the first place after the component's span, or the region's end
    pub next: usize,
}

// The directory that the strict check gives of an accepted image: the components' places in order, zeros after them, and their count. Memory is fixed
// (no heap): an array and how much of it is used, here and in a payload plan and a flash map.
#[derive(Clone, Copy)]
pub struct Directory {
    pub count: usize,
    pub places: [usize; COMPONENTS_MAX],
}

// What is loaded, a stage's binary or a segment of a payload: the len bytes at the place `source` of the image are for the address `load`, where memlen bytes
// are theirs.
// Fields that a segment's type does not use are 0, and so is the type of a stage's binary. The type and the compression stay the numbers that the record
// has: the definitions and the theorems of a payload speak of them.
#[derive(Clone, Copy)]
pub struct Segment {
    pub kind: u32,
    pub compression: u32,
    pub source: usize,
    pub load: u64,
    pub len: usize,
    pub memlen: usize,
}

// The load plan of a stage: the len bytes at the place `source` of the image are for the address `load`, where memlen bytes are zeroed.
#[derive(Clone, Copy)]
pub struct StagePlan {
    pub compression: u32,
    pub entry: u64,
    pub load: u64,
    pub source: usize,
    pub len: usize,
    pub memlen: usize,
}

// The load plan of a payload: its segments in order, the ENTRY last, zeros after them, and their count.
#[derive(Clone, Copy)]
pub struct PayloadPlan {
    pub count: usize,
    pub segments: [Segment; SEGMENTS_MAX],
}

// An area of a flash map: where it begins, how long it is, its flags, and the place of its name.
#[derive(Clone, Copy)]
pub struct Area {
    pub offset: usize,
    pub size: usize,
    pub flags: u16,
    pub name: usize,
}

// A flash map: its areas in map order, zeros after them, and their count.
#[derive(Clone, Copy)]
pub struct FlashMap {
    pub minor: u8,
    pub base: u64,
    pub count: usize,
    pub areas: [Area; AREAS_MAX],
}

// The master header: which region an image has, or refusals 1 to 8 (document 01, "Master header").
#![tactic(auto)]

ghost use Rattle.std.specs.Prelude.{◌≡◌, ◌-◌, true};
ghost use Rattle.cbfs_types.specs.declared.Refusal.{Refusal};
ghost use Rattle.master_header.specs.Master.{address as address_of, address_fits, header_of};
ghost use Rattle.master_header.specs.Master.{align_fits, offset_fits, refusal_number, master};
ghost use Rattle.region.specs.Refusals.{length_fits};
ghost use Rattle.region.specs.Region.{unless_refused};

use cbfs_types::{
    ADDRESS_END, ADDRESS_MAX, ADDRESS_MIN, ALIGN_MAX, ALIGN_MIN, CBFS_HEADER_MAGIC,
    CBFS_HEADER_VERSION1, MASTER_HEADER_LEN, Refusal, Region,
};

// The numbers of the header, and where it stands in the image. The two pads after them are not read.
#[derive(Clone, Copy)]
struct MasterHeader {
    at: usize,
    magic: u32,
    version: u32,
    romsize: u32,
    bootblocksize: u32,
    align: u32,
    offset: u32,
}

// P, the address that the last four bytes hold.
fn address(image: &[u8]) -> u32
    ensures { result ≡ address_of image.now }
{
    bytes_read::le32(image, image.len().saturating_sub(4))
}

// Test 2.
#[tactic(auto, unfolding(crate::specs::Master::address_fits))]
fn address_fits(image: &[u8]) -> bool
    ensures { result ≡ address_fits image.now }
{
    let p = address(image);
    ADDRESS_MIN <= p && p <= ADDRESS_MAX && ADDRESS_END - p as usize <= image.len()
}

// Test 7: exactly one bit is set, and the number is 16 to 65,536.
#[tactic(auto, unfolding(crate::specs::Master::align_fits))]
pub fn align_fits(a: u32) -> bool
    ensures { result ≡ align_fits a }
{
    u32::count_ones(a) == 1 && ALIGN_MIN <= a && a <= ALIGN_MAX
}

// Test 8: the offset is a multiple of the alignment, and not past the region's end. Of an alignment of 0 only 0 is a multiple.
#[tactic(auto, unfolding(crate::specs::Master::offset_fits))]
pub fn offset_fits(align: usize, offset: usize, end: usize) -> bool
    ensures { result ≡ offset_fits align offset end }
{
    if align == 0 {
        return offset == 0;
    }
    offset % align == 0 && offset <= end
}

impl MasterHeader {
    // The header stands as far before the image's end as P lies before 2^32. Its numbers are read in its own 32 bytes: of a part that long no read needs a
    // test.
    #[tactic(auto, unfolding(crate::specs::Master::header_at), using(crate::proofs::Refusing::header_inside, crate::proofs::Refusing::number_read))]
    fn of(image: &[u8]) -> MasterHeader
        requires { address_fits image.now ≡ true }
        ensures { result ≡ header_of image.now }
    {
        let at = image.len() - (ADDRESS_END - address(image) as usize);
        let numbers = &image[at..at + MASTER_HEADER_LEN];
        MasterHeader {
            at,
            magic: bytes_read::be32(numbers, 0),
            version: bytes_read::be32(numbers, 4),
            romsize: bytes_read::be32(numbers, 8),
            bootblocksize: bytes_read::be32(numbers, 12),
            align: bytes_read::be32(numbers, 16),
            offset: bytes_read::be32(numbers, 20),
        }
    }

    // Where the region ends: romsize - bootblocksize, or 0 where the bootblock is the larger.
    fn region_end(&self) -> usize
        ensures { result ≡ self.now.romsize - self.now.bootblocksize }
    {
        (self.romsize as usize).saturating_sub(self.bootblocksize as usize)
    }

    // Tests 3 to 8, of the header of an image that passes the first two.
    #[tactic(auto, unfolding(crate::specs::Master::refusal_number, crate::specs::Master::master_tests, crate::specs::Master::bootblock_fits))]
    fn check(&self, image: &[u8]) -> Result<(), Refusal>
        requires passed { (length_fits image.now ≡ true) × (address_fits image.now ≡ true) }
        requires read { self.now ≡ header_of image.now }
        ensures { result ≡ unless_refused (refusal_number image.now) tt }
    {
        if self.magic != CBFS_HEADER_MAGIC {
            return Err(region::refusal_by(3));
        }
        if self.version != CBFS_HEADER_VERSION1 {
            return Err(region::refusal_by(4));
        }
        if self.romsize as usize != image.len() {
            return Err(region::refusal_by(5));
        }
        let bootblock = image.len().saturating_sub(self.bootblocksize as usize);
        if self.romsize < self.bootblocksize || self.at < bootblock {
            return Err(region::refusal_by(6));
        }
        if !align_fits(self.align) {
            return Err(region::refusal_by(7));
        }
        if !offset_fits(self.align as usize, self.offset as usize, self.region_end()) {
            return Err(region::refusal_by(8));
        }
        Ok(())
    }
}

// The region of an image, or the refusal.
#[tactic(auto, unfolding(crate::specs::Master::master, crate::specs::Master::refusal_number, crate::specs::Master::master_tests))]
pub fn read(image: &[u8]) -> Result<Region, Refusal>
    ensures value { result ≡ master image.now }
    ensures kept { image.exit.now ≡ image.entry.now }
{
    if !region::length_fits(image) {
        return Err(region::refusal_by(1));
    }
    if !address_fits(image) {
        return Err(region::refusal_by(2));
    }
    let header = MasterHeader::of(image);
    header.check(image)?;
    Ok(Region {
        start: header.offset as usize,
        end: header.region_end(),
        align: header.align as usize,
    })
}

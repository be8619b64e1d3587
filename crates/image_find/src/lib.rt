// The calls that find a component of a whole lent image, by its master header: by its name, or by its place. No call asks anything of its caller. `cbfs`
// re-exports them.
#![tactic(auto)]

ghost use Rattle.std.specs.Prelude.{◌≡◌};
ghost use Rattle.image_find.specs.ImageFind.{image_find, plain_find, guarded_find, image_content, plain_content, guarded_content, name_at, content_at};

use cbfs_types::{Refusal, Taken};

// The lookup of either walk. The public calls stay two, plain and guarded, as README names them; the theorems speak of both by this flag.
fn image_find(guarded: bool, image: &[u8], name: &[u8]) -> Result<Taken, Refusal>
    ensures { result ≡ image_find guarded image.now name.now }
{
    let region = master_header::read(&image[0..])?;
    region_read::find_in(guarded, image, region, name)
}

// The first bearer of the name in the plain listing, or refusals 1 to 8 and 10.
pub fn plain_find(image: &[u8], name: &[u8]) -> Result<Taken, Refusal>
    ensures value { result ≡ plain_find image.now name.now }
    ensures kept { (image.exit.now ≡ image.entry.now) × (name.exit.now ≡ name.entry.now) }
{
    image_find(false, image, name)
}

// The only bearer of the name in the guarded listing, or refusals 1 to 8, 10 and 11.
pub fn guarded_find(image: &[u8], name: &[u8]) -> Result<Taken, Refusal>
    ensures value { result ≡ guarded_find image.now name.now }
    ensures kept { (image.exit.now ≡ image.entry.now) × (name.exit.now ≡ name.entry.now) }
{
    image_find(true, image, name)
}

// The content that the lookup of either walk gives.
fn image_content<'a, 'b>(guarded: bool, image: &'a [u8], name: &'b [u8]) -> &'a [u8]
    ensures { result.now ≡ image_content guarded image.now name.now }
{
    match master_header::read(&image[0..]) {
        Ok(region) => region_read::content_found_in(guarded, image, region, name),
        Err(_) => &image[0..0],
    }
}

// The content of the first bearer of the name, as a part of the image; empty on a refusal.
pub fn plain_lookup<'a, 'b>(image: &'a [u8], name: &'b [u8]) -> &'a [u8]
    ensures result_value { result.now ≡ plain_content image.now name.now }
    ensures kept { (image.exit.now ≡ image.entry.now) × (name.exit.now ≡ name.entry.now) }
{
    image_content(false, image, name)
}

// The content of the only bearer of the name, as a part of the image; empty on a refusal.
pub fn guarded_lookup<'a, 'b>(image: &'a [u8], name: &'b [u8]) -> &'a [u8]
    ensures result_value { result.now ≡ guarded_content image.now name.now }
    ensures kept { (image.exit.now ≡ image.entry.now) × (name.exit.now ≡ name.entry.now) }
{
    image_content(true, image, name)
}

// The name of the component at a place, as a part of the image; empty where none stands there.
pub fn name_at(image: &[u8], place: usize) -> &[u8]
    ensures result_value { result.now ≡ name_at image.now place }
    ensures kept { image.exit.now ≡ image.entry.now }
{
    match master_header::read(image) {
        Ok(region) => region_read::name_at_in(image, region, place),
        Err(_) => &image[0..0],
    }
}

// The content of the component at a place, as a part of the image; empty where none stands there.
pub fn content_at(image: &[u8], place: usize) -> &[u8]
    ensures result_value { result.now ≡ content_at image.now place }
    ensures kept { image.exit.now ≡ image.entry.now }
{
    match master_header::read(image) {
        Ok(region) => region_read::content_at_in(image, region, place),
        Err(_) => &image[0..0],
    }
}

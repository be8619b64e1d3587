// The edits of a whole lent image, by its master header. No call asks anything of its caller. `cbfs` re-exports them.
#![tactic(auto)]

ghost use Rattle.std.specs.Prelude.{◌≡◌};
ghost use Rattle.image_edit.specs.ImageEdit.{image_add, image_replace, image_remove};

use cbfs_types::Refusal;

// Adds a component, at the lowest place at which it fits a free run.
pub fn add(image: &mut [u8], name: &[u8], kind: u32, content: &[u8]) -> Result<usize, Refusal>
    ensures value { result ≡ (image_add image.old name.now kind content.now).answer }
    ensures bytes { image.new ≡ (image_add image.old name.now kind content.now).image }
    ensures kept { (name.exit.now ≡ name.entry.now) × (content.exit.now ≡ content.entry.now) }
{
    let region = master_header::read(image)?;
    edit_write::add(image, region, name, kind, content)
}

// Replaces the content of the component that bears the name; it keeps its place and type.
pub fn replace(image: &mut [u8], name: &[u8], content: &[u8]) -> Result<usize, Refusal>
    ensures value { result ≡ (image_replace image.old name.now content.now).answer }
    ensures bytes { image.new ≡ (image_replace image.old name.now content.now).image }
    ensures kept { (name.exit.now ≡ name.entry.now) × (content.exit.now ≡ content.entry.now) }
{
    let region = master_header::read(image)?;
    edit_write::replace(image, region, name, content)
}

// Removes the component that bears the name: its whole slot becomes 0xFF.
pub fn remove(image: &mut [u8], name: &[u8]) -> Result<usize, Refusal>
    ensures value { result ≡ (image_remove image.old name.now).answer }
    ensures bytes { image.new ≡ (image_remove image.old name.now).image }
    ensures kept { name.exit.now ≡ name.entry.now }
{
    let region = master_header::read(image)?;
    edit_write::remove(image, region, name)
}

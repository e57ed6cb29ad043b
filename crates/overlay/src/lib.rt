// A disc over its parent (8/13): the public calls on two lent images, the child and the parent. A sector that the child has not written comes from the parent,
// at the same address; either may have either kind of table. No call asks anything of its caller; each refuses by number and place: the child's own; 21 where
// neither has the sector; else the parent's with 100 added, and the place is in the parent. The parent is looked at only where the child answers 21.
//
// Cost: locating in the child, and where it answers 21, locating in the parent.
#![tactic(auto)]

ghost use Rattle.std.specs.Prelude.{◌≡◌};
ghost use Rattle.format.specs.Reading.{locate};
ghost use Rattle.format.specs.Overlaying.{from_parent, in_image, read_over, locate_over, source_over};
ghost use Rattle.format.specs.Answers.{bytes_read};

use fields::part;
pub use format::{Check, Refusal, SectorAddress, Sourced};

// Where the parent's sector at address a lies, or the refusal that the pair gives for its own.
fn locate_parent(parent: &[u8], a: SectorAddress) -> Result<Sourced, Refusal>
    ensures { result ≡ from_parent (in_image 1 (locate parent.now a.0)) }
{
    let place = sectors::locate_in(parent, a).map_err(pairs::parent_refusal)?;
    Ok(Sourced { image: 1, place })
}

// Where the sector at address a lies: in which image, 0 for the child and 1 for the parent, and where there. Or why it can't be read.
pub fn locate_over(child: &[u8], parent: &[u8], a: SectorAddress) -> Result<Sourced, Refusal>
    ensures { result ≡ locate_over child.now parent.now a.0 }
{
    match sectors::locate_in(child, a) {
        Ok(place) => Ok(Sourced { image: 0, place }),
        Err(r) => {
            if r.is(Check::NotWritten) {
                return locate_parent(parent, a);
            }
            Err(r)
        }
    }
}

// Which image the sector at address a is a part of, 0 for the child and 1 for the parent, or the refusal of `locate_over`.
pub fn source_over(child: &[u8], parent: &[u8], a: SectorAddress) -> Result<u64, Refusal>
    ensures { result ≡ source_over child.now parent.now a.0 }
{
    match locate_over(child, parent, a) {
        Ok(s) => Ok(s.image),
        // the refusal's arm is written out, not left to `?`, so that an edit of it is refused at a fact
        Err(r) => Err(r),
    }
}

// The sector at address a: a part of the child or of the parent, and the empty part exactly where `locate_over` refuses.
pub fn read_over<'a>(child: &'a [u8], parent: &'a [u8], a: SectorAddress) -> &'a [u8]
    ensures { result.now ≡ bytes_read (read_over child.now parent.now a.0) }
{
    match locate_over(child, parent, a) {
        Err(_) => part(child, 0, 0),
        Ok(s) => {
            let place = s.place;
            if s.image == 0 {
                return part(child, place.start.0, place.size);
            }
            part(parent, place.start.0, place.size)
        }
    }
}

// Internal: the lines of a listing.
ghost use Rattle.text.specs.Appends.{Appends};
ghost use Rattle.listing.specs.Listing.{head, line};

use format::{AddressRange, Place, Refusal, SectorAddress};
use text::Writer;

// The first line: how many sectors there are, or why the image does not open.
pub fn head(w: &mut Writer<'_>, c: Result<AddressRange, Refusal>)
    ensures { Appends w.old (head c) w.new }
{
    match c {
        Ok(s) => w.end(b"sectors ", s.count),
        Err(r) => w.refused(r.number as u64),
    }
}

// The line of an address: where its sector lies, or why it is not read.
pub fn line(w: &mut Writer<'_>, a: SectorAddress, l: Result<Place, Refusal>)
    ensures { Appends w.old (line a.0 l) w.new }
{
    w.signed(a.0);
    match l {
        Ok(p) => {
            w.both(b" ", p.start.0);
            w.end(b" ", p.size);
        }
        Err(r) => w.end(b" - ", r.number as u64),
    }
}

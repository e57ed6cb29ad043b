// What the listing program prints, as a function on slices.
#![tactic(auto)]

mod lines; // its lines

ghost use Rattle.std.specs.Prelude.{◌≤◌, length, pos, neg_ℤ};
ghost use Rattle.opening.specs.Images.{held};
ghost use Rattle.text.specs.Text.{longest_input};
ghost use Rattle.text.specs.Buffer.{Prints};
ghost use Rattle.text.specs.Appends.{Appends};
ghost use Rattle.listing.specs.Listing.{lines_from, image_text, listing};

use format::EntryNumber;
use opening::Image;
use sectors::Visit;
use text::Writer;

// The lines of all addresses of an opened image. Neighbours in one intact block cost one pass over the index and the block.
fn address_lines(image: Image<'_>, w: &mut Writer<'_>)
    ensures { Appends w.old (lines_from image.entry.bytes.now (held image.entry).count (neg_ℤ (pos (held image.entry).negative))) w.new }
{
    let mut known = None;
    // an iteration for each address
    for n in 0..image.found.count() {
        let address = image.found.address(EntryNumber(n));
        let near = sectors::locate_near(image, Visit { address, known });
        lines::line(w, address, near.located);
        known = near.known;
    }
}

// The text of an image, which is no longer than the longest text. It is opened once.
fn image_text(s: &[u8], w: &mut Writer<'_>)
    requires { length s.now ≤ longest_input }
    ensures { Appends w.old (image_text s.now) w.new × (length (image_text s.now) ≤ 311296) }
{
    match opening::open(s) {
        Err(r) => lines::head(w, Err(r)),
        Ok(image) => {
            lines::head(w, Ok(image.found.range()));
            address_lines(image, w);
        }
    }
}

// What the listing program prints for an input, written to the front of out, which has room for every text; the answer is how
// many bytes it is.
pub fn list(input: &[u8], out: &mut [u8; 311296]) -> usize
    ensures { Prints out.old (listing input.now) out.new result }
{
    if 65536 < input.len() {
        return text::print(out, b"too long\n");
    }
    let mut w = Writer::new(out);
    image_text(input, &mut w);
    w.written()
}

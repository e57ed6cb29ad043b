// Internal: the second pass of a commit: the sectors that are stored, and the entries of the new table. The image's own bytes stay
// as they are, so that it is read and searched meanwhile.
//
// Cost: each handed-in sector is compared with the sectors of the disc and with those stored before it, up to the first that
// is equal; else linear in what is read and written.
#![tactic(auto)]

ghost use Rattle.std.specs.Prelude.{false, ◌≡◌, ◌^◌, ◌≤◌, ◌<◌, length, take};
ghost use Rattle.format.specs.Layouts.{encode};
ghost use Rattle.format.specs.Writing.{longest_buffer};
ghost use Rattle.format.specs.Committing.{any_outside, entry_numbers, old_pointer};
ghost use Rattle.opening.specs.Answers.{contents};
ghost use Rattle.opening.specs.Images.{held};
ghost use Rattle.search.specs.Found.{Checked};
ghost use Rattle.storing.specs.Stores.{Stores, stored};
ghost use Rattle.storing.specs.Turns.{entry_of, add_in, step_in, Steps, Stepped, Turns, Turned};

use fields::part;
use format::{ByteOffset, EntryNumber, ItemNumber, Pointer};
use opening::{Image, Opened};

// Where a sector is, and how many are stored with it.
#[derive(Clone, Copy)]
pub struct Handed {
    pub pointer: Pointer,
    pub stored: u64,
}

// A new table entry, and how many sectors are stored and how many addresses of the list are used up after it.
#[derive(Clone, Copy)]
struct Next {
    entry: u64,
    stored: u64,
    k: usize,
}

// The table entry of a pointer.
pub fn encode(shift: u64, p: Pointer) -> u64
    requires { (shift ≤ 32) × (p.block.0 < 2 ^ 32) × (p.item.0 < 2 ^ 32) }
    ensures { result ≡ encode shift p }
{
    let unit = 1u64 << shift;
    p.block.0 * unit + p.item.0
}

// A sector that the disc does not hold: found among the `stored` ones of the block at `block`, or stored there as the next.
pub fn store_among(buf: &mut [u8], block: ByteOffset, sector: &[u8], stored: u64) -> Handed
    requires { Steps buf.old block.0 sector.now (add_in buf.old block.0 sector.now stored) }
    ensures { Stepped buf.old buf.new block.0 (add_in buf.old block.0 sector.now stored) result }
{
    let start = block.0 + 36;
    if let Some(item) = search::among(buf, ByteOffset(start), stored, sector) {
        return Handed {
            pointer: Pointer { block, item },
            stored,
        };
    }
    let size = sector.len() as u64;
    fields::copy(buf, start + stored * size, sector);
    let item = ItemNumber(stored);
    Handed {
        pointer: Pointer { block, item },
        stored: stored + 1,
    }
}

// A handed-in sector: found on the disc, or stored in the new block, at the image's end.
fn store(buf: &mut [u8], used: u64, t: Opened, sector: &[u8], stored: u64) -> Handed
    requires { Checked (take used buf.old) (contents t) × Steps buf.old used sector.now (step_in buf.old used (contents t) sector.now stored) }
    ensures { Stepped buf.old buf.new used (step_in buf.old used (contents t) sector.now stored) result }
{
    let image = Image {
        bytes: part(buf, 0, used),
        found: t,
    };
    if let Some(a) = search::on_disc(image, sector) {
        return Handed {
            pointer: image.pointer(a),
            stored,
        };
    }
    store_among(buf, ByteOffset(used), sector, stored)
}

// The entry of an address that is not in the list, number a: what it was, encoded anew. It is read once.
fn old_entry<'a>(image: Image<'a>, a: EntryNumber, shift: u64) -> u64
    requires { Checked image.bytes.now (held image) × (length image.bytes.now ≤ longest_buffer) × (a.0 < (held image).count) × (shift ≤ 32) }
    ensures { result ≡ entry_of shift (old_pointer image.entry.bytes.now (held image.entry) a.0) }
{
    match image.written(a) {
        None => 0,
        Some(p) => encode(shift, p),
    }
}

// Entry a of the new table; a sector that is handed in for its address is stored if it has to be.
fn next_entry(
    buf: &mut [u8],
    used: u64,
    t: Opened,
    addresses: &[i64],
    size: u64,
    sectors: &[u8],
    shift: u64,
    k: usize,
    a: EntryNumber,
    stored: u64,
) -> Next
    requires { Turns buf.old used (contents t) (entry_numbers (contents t) addresses.now) size sectors.now shift k a.0 stored × (any_outside (contents t) addresses.now ≡ false) }
    ensures { Turned buf.old buf.new used (contents t) (entry_numbers (contents t) addresses.now) size sectors.now shift k a.0 stored result }
{
    if planning::is_next(t, addresses, k, a) {
        let handed = k as u64;
        let step = store(buf, used, t, part(sectors, handed * size, size), stored);
        return Next {
            entry: encode(shift, step.pointer),
            stored: step.stored,
            k: k + 1,
        };
    }
    let image = Image {
        bytes: part(buf, 0, used),
        found: t,
    };
    Next {
        entry: old_entry(image, a, shift),
        stored,
        k,
    }
}

// Writes the sectors that are stored, from used + 36 on, and the entries of the new table, from `at` on.
pub fn put_entries(
    buf: &mut [u8],
    used: u64,
    t: Opened,
    addresses: &[i64],
    size: u64,
    sectors: &[u8],
    at: ByteOffset,
    shift: u64,
)
    requires { Stores buf.old used (contents t) (entry_numbers (contents t) addresses.now) size sectors.now at.0 shift × (any_outside (contents t) addresses.now ≡ false) }
    ensures { buf.new ≡ stored buf.old used (contents t) (entry_numbers (contents t) addresses.now) size sectors.now at.0 shift }
{
    let mut stored: u64 = 0;
    let mut k: usize = 0;
    // an iteration for each table entry of the disc
    for a in 0..t.count() {
        let n = next_entry(
            buf,
            used,
            t,
            addresses,
            size,
            sectors,
            shift,
            k,
            EntryNumber(a),
            stored,
        );
        fields::put(buf, at.0 + 8 * a, 8, n.entry);
        stored = n.stored;
        k = n.k;
    }
}

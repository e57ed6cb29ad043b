// Internal: a commit to an opened disc. What it appends is written payloads first, each header after its payload; the image's own
// bytes stay as they are until the header's two fields are set last, so that it is read and searched meanwhile.
//
// Cost: beside the checks, two searches for each handed-in sector, one by `planning` and one by `storing`; else linear in what is
// read and written.
#![tactic(auto)]

ghost use Rattle.std.specs.Prelude.{false, ◌++◌, ◌≡◌, ℕ, ◌≤◌, length, take};
ghost use Rattle.fields.specs.Bytes.{overwrite};
ghost use Rattle.format.specs.declared.TableKind.TheVariants.{First};
ghost use Rattle.format.specs.Layouts.{index_offset};
ghost use Rattle.format.specs.Opening.{opening};
ghost use Rattle.format.specs.Writing.{largest_size, most_addresses, longest_buffer, set_header};
ghost use Rattle.format.specs.Committing.{arguments_verdict, any_outside, entry_numbers, new_block, new_table, index_start, appended, appended_bytes, commit};
ghost use Rattle.format.specs.Answers.{answered};
ghost use Rattle.opening.specs.Answers.{contents};
ghost use Rattle.opening.specs.Images.{held};
ghost use Rattle.planning.specs.Plans.{stored_by, pointers_by};
ghost use Rattle.format.specs.Facts.{block_length_for, block_entry};
ghost use Rattle.appending.specs.Appends.{Passed, layout_for, Data, Fits};

use fields::{get, part};
use format::{ByteOffset, Check, INDEX_OFFSET, Placed, Refusal};
use opening::{Image, Opened};
use planning::Planned;

// Where the new table and the new index stand, and where the new image ends; how many of the old index entries are kept.
#[derive(Clone, Copy)]
struct Layout {
    table: ByteOffset,
    index: ByteOffset,
    end: u64,
    kept: u64,
}

// How long the new data block is.
fn block_length(stored: u64, size: u64) -> u64
    requires { (stored ≤ most_addresses) × (size ≤ largest_size) }
    ensures { (result ≡ block_length_for stored size) × (result ≤ 4294967332) }
{
    if stored == 0 {
        return 0;
    }
    36 + stored * size
}

// How many index entries the new data block has.
fn block_entries(stored: u64) -> u64
    ensures { ((block : ℕ) → result ≡ length (block_entry block stored)) × (result ≤ 1) }
{
    if stored == 0 {
        return 0;
    }
    1
}

// Where what is appended to the image will stand, if so many sectors are stored.
fn lay_out<'a>(image: Image<'a>, size: u64, stored: u64) -> Layout
    requires { (length image.bytes.now ≤ longest_buffer) × (stored ≤ most_addresses) × (size ≤ largest_size) × ((held image).kind ≡ First) }
    ensures { result ≡ layout_for image.entry.bytes.now (held image.entry) size stored }
{
    let s = image.bytes;
    let kept = indexing::count_kept(image.index());
    let table = s.len() as u64 + block_length(stored, size);
    let index = table + (49 + 8 * image.found.count());
    let end = index + (20 + 16 * (kept + block_entries(stored)));
    Layout {
        table: ByteOffset(table),
        index: ByteOffset(index),
        end,
        kept,
    }
}

// Writes the new data block and the new table.
fn put_data(
    buf: &mut [u8],
    used: u64,
    t: Opened,
    addresses: &[i64],
    size: u64,
    sectors: &[u8],
    table: ByteOffset,
    shift: u64,
    stored: u64,
)
    requires { Data buf.old used (contents t) (entry_numbers (contents t) addresses.now) size sectors.now table.0 shift stored × (any_outside (contents t) addresses.now ≡ false) }
    ensures { buf.new ≡ overwrite buf.old used (new_block size (stored_by (take used buf.old) (contents t) (entry_numbers (contents t) addresses.now) size sectors.now).items
        ++ new_table (pointers_by (take used buf.old) (contents t) (entry_numbers (contents t) addresses.now) size sectors.now)) }
{
    storing::put_entries(
        buf,
        used,
        t,
        addresses,
        size,
        sectors,
        ByteOffset(table.0 + 49),
        shift,
    );
    records::seal_block(buf, ByteOffset(used), size, stored);
    records::seal_table(buf, table, shift, t.count());
}

// Writes all that is appended, and then the header's two fields.
fn put_all(
    buf: &mut [u8],
    used: u64,
    t: Opened,
    addresses: &[i64],
    size: u64,
    sectors: &[u8],
    time: u64,
    plan: Planned,
    at: Layout,
)
    requires { Fits buf.old used (contents t) addresses.now size sectors.now plan at }
    ensures { buf.new ≡ set_header (overwrite buf.old used (appended_bytes (appended (take used buf.old) (index_offset (take used buf.old)) (entry_numbers (contents t) addresses.now) size sectors.now)))
        (index_start used (appended (take used buf.old) (index_offset (take used buf.old)) (entry_numbers (contents t) addresses.now) size sectors.now)) time }
{
    let o = ByteOffset(get(part(buf, 0, used), INDEX_OFFSET, 8));
    let table = at.table;
    let index = at.index;
    let stored = plan.stored;
    let shift = planning::shift_for(plan.largest);
    put_data(buf, used, t, addresses, size, sectors, table, shift, stored);
    indexing::put_index(buf, used, o, index, table, at.kept, stored);
    records::set_header(buf, index, time);
}

// A commit all of whose checks but 35 have passed.
fn append(
    buf: &mut [u8],
    used: u64,
    t: Opened,
    addresses: &[i64],
    size: u64,
    sectors: &[u8],
    time: u64,
) -> Result<Placed, Refusal>
    requires { Passed buf.old used (contents t) addresses.now size sectors.now }
    ensures { answered result buf.new ≡ commit buf.old used addresses.now size sectors.now time }
{
    let image = Image {
        bytes: part(buf, 0, used),
        found: t,
    };
    let plan = planning::plan(image, addresses, size, sectors);
    let at = lay_out(image, size, plan.stored);
    let end = at.end;
    let index = at.index;
    let length = buf.len() as u64;
    if length < end {
        return Err(Refusal::of(Check::NoRoom));
    }
    put_all(buf, used, t, addresses, size, sectors, time, plan, at);
    Ok(Placed { used: end, index })
}

// A commit to a disc that opened as t, whose arguments passed: 74, 20, the sectors' numbers but 21, 35.
pub fn commit(
    buf: &mut [u8],
    used: u64,
    t: Opened,
    addresses: &[i64],
    size: u64,
    sectors: &[u8],
    time: u64,
) -> Result<Placed, Refusal>
    requires { (arguments_verdict buf.old used addresses.now size sectors.now ≡ Ok tt) × (opening (take used buf.old) ≡ Ok (contents t)) }
    ensures { answered result buf.new ≡ commit buf.old used addresses.now size sectors.now time }
{
    let image = Image {
        bytes: part(buf, 0, used),
        found: t,
    };
    checking::disc_verdict(image, addresses)?;
    append(buf, used, t, addresses, size, sectors, time)
}

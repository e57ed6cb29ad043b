// The opened image, as it travels. Its last field says that opening answered so: none is made otherwise.
ghost use Rattle.std.specs.Prelude.{◌≡◌, ◌<◌, Ok};
ghost use Rattle.format.specs.Layouts.{index_offset};
ghost use Rattle.format.specs.Opening.{opening};
ghost use Rattle.format.specs.Reading.{table_entry, pointer_at};
ghost use Rattle.opening.specs.Answers.{contents, PointsTo};

use super::Opened;
use fields::get;
use format::{
    ByteOffset, EntryNumber, INDEX_OFFSET, Pointer, SECOND_ENTRY, SECOND_HEADER, TABLE_ENTRY,
    TABLE_HEADER, TableKind,
};
use index::Index;

// The lent bytes, and what opening found in them.
#[derive(Clone, Copy)]
pub struct Image<'a> {
    pub bytes: &'a [u8],
    pub found: Opened,
    ghost opens: { opening bytes.now ≡ Ok (contents found) },
}

impl<'a> Image<'a> {
    // Its index, where the header says.
    pub fn index(self) -> Index<'a>
        ensures bytes { result.bytes ≡ self.entry.bytes }
        ensures at { result.at.0 ≡ index_offset self.entry.bytes.now }
    {
        let at = ByteOffset(get(self.bytes, INDEX_OFFSET, 8));
        Index {
            bytes: self.bytes,
            at,
        }
    }

    // The number in table entry n.
    pub fn table_entry(self, n: EntryNumber) -> u64
        requires { n.0 < (contents self.found).count }
        ensures { result ≡ table_entry self.entry.bytes.now (contents self.entry.found) n.0 }
    {
        let s = self.bytes;
        let table = self.found.table;
        match self.found.kind {
            TableKind::First => get(s, table.0 + TABLE_HEADER + TABLE_ENTRY * n.0, TABLE_ENTRY),
            TableKind::Second => get(
                s,
                table.0 + SECOND_HEADER + SECOND_ENTRY * n.0,
                SECOND_ENTRY,
            ),
        }
    }

    // What table entry n encodes.
    pub fn pointer(self, n: EntryNumber) -> Pointer
        requires { n.0 < (contents self.found).count }
        ensures { result ≡ pointer_at self.entry.bytes.now (contents self.entry.found) n.0 }
    {
        self.found.decoded(self.table_entry(n))
    }

    // What table entry n points to, none where it is not written. It is read once.
    pub fn written(self, n: EntryNumber) -> Option<Pointer>
        requires { n.0 < (contents self.found).count }
        ensures { PointsTo self.entry.bytes.now (contents self.entry.found) n.0 result }
    {
        let e = self.table_entry(n);
        if self.found.is_unwritten(e) {
            return None;
        }
        Some(self.found.decoded(e))
    }
}

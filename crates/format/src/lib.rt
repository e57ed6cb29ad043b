// Internal: the types that travel between the crates, in code and in the definitions of specs/, and the header's layout. A byte offset,
// an item number, a sector address and an entry number are separate things, and none is passed for another.

#![tactic(auto)]

ghost use Rattle.std.specs.Prelude.{◌≡◌, ◌↔◌, IsTrue};
ghost use Rattle.format.specs.Refusals.{refusal};
ghost use Rattle.format.specs.Checks.{number_of};

// A place in an image.
#[derive(Clone, Copy, PartialEq, Eq, PartialOrd, Ord)]
pub struct ByteOffset(pub u64);

// Which item of a data block.
#[derive(Clone, Copy, PartialEq, Eq, PartialOrd, Ord)]
pub struct ItemNumber(pub u64);

// Which sector of a disc. 11/13: "Addresses become signed".
#[derive(Clone, Copy, PartialEq, Eq, PartialOrd, Ord)]
pub struct SectorAddress(pub i64);

// Which entry of a disc's table: "the entry number is address + `negative`".
#[derive(Clone, Copy, PartialEq, Eq, PartialOrd, Ord)]
pub struct EntryNumber(pub u64);

// The two kinds of table: 'DDT*' and 'DDT2' (11/13).
#[derive(Clone, Copy, PartialEq, Eq)]
pub enum TableKind {
    First,
    Second,
}

// What a call refuses: document 01's checks, each with its number there.
#[derive(Clone, Copy, PartialEq, Eq)]
pub enum Check {
    HeaderCutOff = 1,
    UnknownIdentifier = 2,
    UnknownVersion = 3,
    IndexOutside = 4,
    NotAnIndex = 5,
    IndexChecksum = 6,
    EntryOutside = 7,
    EntryMismatch = 8,
    NoTable = 9,
    SeveralTables = 10,
    TableOutside = 11,
    TableMalformed = 12,
    TableCompressed = 13,
    TableChecksum = 14,
    AddressOutside = 20,
    NotWritten = 21,
    BlockNotIndexed = 22,
    BlockOutside = 23,
    BlockCompressed = 24,
    BlockMalformed = 25,
    ItemOutside = 26,
    BlockChecksum = 27,
    SizeRefused = 30,
    BufferTooLong = 31,
    UsedPastBuffer = 32,
    LengthMismatch = 33,
    AddressesNotRising = 34,
    NoRoom = 35,
    SizesDiffer = 40,
    FileBufferTooShort = 41,
    PartialSector = 42,
    SeveralLevels = 70,
    UnknownSizeType = 71,
    AddressesExceedBlocks = 72,
    UnknownStatus = 73,
    SecondKind = 74,
}

impl Check {
    // Its number in document 01.
    pub fn number(self) -> u32
        ensures { result ≡ number_of self }
    {
        self as u32
    }
}

// Why a call is refused: the number of a check, with 100 added where it refuses the parent of a pair, and the byte offset in the image of what it is about, 0
// where there is none. A number and a 0, as the definitions and the C interface have them (`refusal`, `PlaceFor`).
#[derive(Clone, Copy)]
pub struct Refusal {
    pub number: u32,
    pub place: ByteOffset,
}

impl Refusal {
    // By this check, at this place.
    pub fn at(check: Check, place: ByteOffset) -> Refusal
        ensures { result ≡ refusal (number_of check) place.0 }
    {
        let number = check.number();
        Refusal { number, place }
    }

    // By this check, with no place.
    pub fn of(check: Check) -> Refusal
        ensures { result ≡ refusal (number_of check) 0 }
    {
        Refusal::at(check, ByteOffset(0))
    }

    // Whether this check refuses, and not in the parent of a pair.
    pub fn is(self, check: Check) -> bool
        ensures { IsTrue result ↔ self.number ≡ number_of check }
    {
        self.number == check.number()
    }
}

// An entry of an index. Its fields of four bytes are u64, as every number that is read from an image, and so the definitions have them (`is_type`).
#[derive(Clone, Copy)]
pub struct Entry {
    pub blockType: u64,
    pub dataType: u64,
    pub offset: ByteOffset,
}

// What a table entry encodes: a data block and one of its items.
#[derive(Clone, Copy)]
pub struct Pointer {
    pub block: ByteOffset,
    pub item: ItemNumber,
}

// Where a sector lies in its image.
#[derive(Clone, Copy)]
pub struct Place {
    pub start: ByteOffset,
    pub size: u64,
}

// The addresses of a disc: how many there are, and the lowest; the others follow it.
#[derive(Clone, Copy)]
pub struct AddressRange {
    pub count: u64,
    pub lowest: SectorAddress,
}

// Where a sector of a disc over its parent (8/13) lies: in which image, 0 for the child and 1 for the parent, and where there.
// A plain number, as `source_over` answers it and the C interface hands it out (`in_image`).
#[derive(Clone, Copy)]
pub struct Sourced {
    pub image: u64,
    pub place: Place,
}

// What a call that writes answers: how many bytes of the buffer the image has, and where its index is.
#[derive(Clone, Copy)]
pub struct Placed {
    pub used: u64,
    pub index: ByteOffset,
}

// What a new image is stamped with: the application's name, 64 bytes, and its version, the media type, and the two times of the header, which are stored as
// they are.
#[derive(Clone, Copy)]
pub struct Stamp<'a> {
    pub application: &'a [u8],
    pub major: u8,
    pub minor: u8,
    pub media_type: u32,
    pub created: u64,
    pub written: u64,
}

// The flat file that an export wrote: how many bytes it has, and how many sectors of it are filled with zeros (9/13).
#[derive(Clone, Copy)]
pub struct Flat {
    pub length: u64,
    pub filled: u64,
}

// The bounds of check 30: how many sectors a disc may have, the largest size of a sector, and how many addresses a commit may have.
pub const MOST_SECTORS: u64 = 1048576;

pub const LARGEST_SIZE: u64 = 65536;

pub const MOST_ADDRESSES: u64 = 65536;

// The header, as 2/13 has it: how many bytes it has, and where its fields stand. The identifier, at 0, has 8 bytes.
pub const HEADER_LENGTH: u64 = 104;

pub const APPLICATION: u64 = 8;

pub const APPLICATION_LENGTH: u64 = 64; // 32 UTF-16 units

pub const IMAGE_MAJOR: u64 = 72;

pub const IMAGE_MINOR: u64 = 73;

pub const APPLICATION_MAJOR: u64 = 74;

pub const APPLICATION_MINOR: u64 = 75;

pub const MEDIA_TYPE: u64 = 76;

pub const INDEX_OFFSET: u64 = 80;

pub const CREATION_TIME: u64 = 88;

pub const LAST_WRITTEN_TIME: u64 = 96;

// The tables, 'DDT*' and 'DDT2': how many bytes the header and an entry have.
pub const TABLE_HEADER: u64 = 49;

pub const TABLE_ENTRY: u64 = 8;

pub const SECOND_HEADER: u64 = 82;

pub const SECOND_ENTRY: u64 = 4;

// Where the entries of a new image's table start: behind the header and the table's.
pub const CREATED_ENTRIES: u64 = HEADER_LENGTH + TABLE_HEADER;

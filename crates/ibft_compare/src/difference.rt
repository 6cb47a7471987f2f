// A difference between two tables, by meaning.
ghost use Rattle.std.specs.Prelude.{◌≡◌};
ghost use Rattle.ibft_compare.specs.Differences.{nothing};

use table_header::verdict::Refusal;

// What differs. A structure is named by its kind's ID and its Index; a field of it, and an entry, also by where it stands in
// the structure: the flags at 5, an entry by its length.
#[derive(Clone, Copy)]
pub enum Difference {
    Nothing,
    OemId,
    OemTableId,
    ControlFlags,
    Presence(u8, u8),
    Field(u8, u8, u16),
    Entry(u8, u8, u16),
}

// Bytes of a table: where they start and how many they are. A table has nothing to name at 0: what starts there is not in the
// table.
#[derive(Clone, Copy)]
pub struct Stretch {
    pub start: u32,
    pub length: u16,
}

// No stretch.
pub(crate) fn no_stretch() -> Stretch
    ensures { result ≡ nothing }
{
    Stretch {
        start: 0,
        length: 0,
    }
}

// How many differences two tables have; or the refusal, and whose it is: 0 the left table's, 1 the right one's.
// (No Result: the definitions give a refused comparison the count 0, and the exports for C hand out each number.)
#[derive(Clone, Copy)]
pub struct Compared {
    pub refusal: Refusal,
    pub side: u8,
    pub count: u16,
}

// One of them: what differs, where each table has it, and for an entry the differing bytes of the left table's.
#[derive(Clone, Copy)]
pub struct DifferenceReading {
    pub refusal: Refusal,
    pub side: u8,
    pub difference: Difference,
    pub left: Stretch,
    pub right: Stretch,
    pub shown: Stretch,
}

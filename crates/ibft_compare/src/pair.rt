// Structures of two tables that are compared with each other: named ones by their slot, extras by kind and Index.
ghost use Rattle.std.specs.Prelude.{◌≡◌, ◌&&◌, eqb};
ghost use Rattle.ibft_layout.specs.Layout.{slot_count};
ghost use Rattle.ibft_compare.specs.Pairs.{named_pair};

use ibft_layout::layout::{SLOT_COUNT, index_of};

// A structure that either table may have. Its group is its slot where it is a named one, the first slot of an extra of its kind
// where it is an extra; group and Index name it. Then the slot that it has in the left table and in the right one:
// `SLOT_COUNT`, where nothing is ever present, for an extra that this table has not.
// (Slots and no Option: specs/Pairs.antt defines pairs with them, and `paired` in specs/CompareCases.antt lists them.)
#[derive(Clone, Copy)]
pub struct Pair {
    pub group: u8,
    pub index: u8,
    pub left: u8,
    pub right: u8,
}

impl Pair {
    // A named slot: the same one in both tables.
    pub(crate) fn named(k: u8) -> Pair
        ensures { result ≡ named_pair k }
    {
        Pair {
            group: k,
            index: index_of(k),
            left: k,
            right: k,
        }
    }

    // Has neither table the structure, an extra?
    pub(crate) fn is_none(self) -> bool
        ensures { result ≡ eqb self.left slot_count && eqb self.right slot_count }
    {
        self.left == SLOT_COUNT && self.right == SLOT_COUNT
    }
}

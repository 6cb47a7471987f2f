// A table with the starts of its structures by slot, which a reading finds once and asks for again and again.
ghost use Rattle.std.specs.Prelude.{◌≡◌};
ghost use Rattle.ibft_table.specs.Table.{starts_of};

use ibft_layout::layout::SLOT_COUNT;
use ibft_table::seats::starts_of;

// The bytes lent, and the start of each slot's structure, 0 for a slot not in use.
#[derive(Clone, Copy)]
pub(crate) struct Slots<'a> {
    pub(crate) t: &'a [u8],
    pub(crate) starts: [u16; SLOT_COUNT as usize],
}

impl<'a> Slots<'a> {
    // With the starts found.
    pub(crate) fn of(t: &'a [u8]) -> Slots<'a>
        ensures table { result.t ≡ t.entry }
        ensures starts { result.starts ≡ starts_of t.now }
    {
        Slots {
            t,
            starts: starts_of(t),
        }
    }
}

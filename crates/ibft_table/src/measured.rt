// A table with its measures, which the tests of its structures and entries ask for again and again.
ghost use Rattle.std.specs.Prelude.{◌≡◌};
ghost use Rattle.table_header.specs.Header.{length_of};
ghost use Rattle.ibft_table.specs.Table.{control_end_of, word_count};

use crate::words::{control_end, word_count};
use table_header::header::length_of;

// The bytes lent, their Length field, where Control ends, and how many words it has.
#[derive(Clone, Copy)]
pub(crate) struct Measured<'a> {
    pub(crate) t: &'a [u8],
    pub(crate) length: u32,
    pub(crate) least: u32,
    pub(crate) words: u8,
    ghost length_is: { length ≡ length_of t.now },
    ghost least_is: { least ≡ control_end_of t.now },
    ghost words_is: { words ≡ word_count t.now },
}

impl<'a> Measured<'a> {
    // With its measures read.
    pub(crate) fn of(t: &'a [u8]) -> Measured<'a>
        ensures { result.t.now ≡ t.now }
    {
        Measured {
            t,
            length: length_of(t),
            least: control_end(t),
            words: word_count(t),
        }
    }
}

// Writers of the header and of Control, each lent its own stretch of the room.
ghost use Rattle.std.specs.Prelude.{◌≡◌, ◌+◌, ◌*◌, ◌≤◌, length};
ghost use Rattle.octets.specs.Counting.{gather};
ghost use Rattle.octets.specs.Octets.{write};
ghost use Rattle.ibft_layout.specs.Layout.{slot_count, most_words};
ghost use Rattle.ibft_record.specs.Limits.{extras_given};
ghost use Rattle.ibft_build.specs.Planning.{Whole};
ghost use Rattle.ibft_build.specs.Writing.{header_with, control_front, start_word, control_with};

use crate::plan::Plan;
use ibft_build_rules::range::{CONTROL_FLAGS_AT, OEM_AT};
use ibft_layout::control::Control;
use ibft_layout::header::Header;
use ibft_layout::layout::{EXTRA_NICS, EXTRA_TARGETS, NAMED_COUNT};
use ibft_record::record::{extra_nics, extra_targets};
use octets::read::{byte_at, part};
use octets::write::{put_bytes, put_u16, put_zeros};
use table_header::header::OEM_ID_AT;
use table_header::write::header_start;

// Where the OEM fields stand in the range, how long they are together, where they stand in the header.
const OEM_FROM: usize = OEM_AT as usize;

const OEM_SIZE: usize = CONTROL_FLAGS_AT as usize - OEM_AT as usize;

const OEM_TO: usize = OEM_ID_AT as usize;

// Where Control has the words of the named slots, and those of the extras.
const WORDS_AT: u16 = Control::WORDS_AT - Control::AT;

const EXTRA_WORDS_AT: u16 = WORDS_AT + 2 * NAMED_COUNT as u16;

// Writes the header of a table of this Length. The two OEM fields stand in the range as in the header, so they are one copy.
pub(crate) fn put_header(header: &mut [u8], range: &[u8], size: u32)
    requires { (length header.old ≡ 48) × Whole range.now }
    ensures { header.new ≡ header_with range.now size }
{
    let start = header_start(Header::SIGNATURE, size);
    put_bytes(header, 0, &start);
    let oem = part(range, OEM_FROM, OEM_SIZE);
    put_bytes(header, OEM_TO, oem);
    put_zeros(header, 24, 24);
}

// Control up to its words for the slots: what it starts with (its Length grows with the extras), its flags, Extensions.
fn control_front(extras: u8, flags: u8) -> [u8; 8]
    requires { extras ≤ most_words }
    ensures { result ≡ control_front extras flags }
{
    let size = Control::LENGTH + 2 * extras as u16;
    [
        Control::ID,
        Control::VERSION,
        (size % 256) as u8,
        (size / 256 % 256) as u8,
        0,
        flags,
        0,
        0,
    ]
}

impl<'a> Plan<'a> {
    // Writes the starts of the structures of `count` slots, from slot `first` on, behind one another from `at` on.
    fn put_start_words(&self, control: &mut [u8], at: u16, first: u8, count: u8)
        requires { (at ≤ 42) × (first + count ≤ slot_count) }
        ensures { control.new ≡ write control.old at (gather (start_word self.now.entries.range.now) first count) }
    {
        for i in 0..count {
            put_u16(
                control,
                at as usize + 2 * i as usize,
                self.structure_start(first + i),
            );
        }
    }

    // Writes Control: the words of the named slots, then those of the extras in slot order.
    pub(crate) fn put_control(&self, control: &mut [u8])
        requires { length control.old ≡ 18 + 2 * extras_given self.now.entries.range.now }
        ensures { control.new ≡ control_with self.now.entries.range.now }
    {
        let range = self.entries.range;
        let nics = extra_nics(range);
        let targets = extra_targets(range);
        let front = control_front(nics + targets, byte_at(range, CONTROL_FLAGS_AT as usize));
        put_bytes(control, 0, &front);
        self.put_start_words(control, WORDS_AT, 0, NAMED_COUNT);
        self.put_start_words(control, EXTRA_WORDS_AT, EXTRA_NICS, nics);
        let behind = EXTRA_WORDS_AT + 2 * nics as u16;
        self.put_start_words(control, behind, EXTRA_TARGETS, targets);
    }
}

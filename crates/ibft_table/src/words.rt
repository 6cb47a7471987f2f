// Control's words: how many there are, and of each word where its structure starts, its kind, its Index, where it ends.
ghost use Rattle.std.specs.Prelude.{◌≡◌, ◌≤◌, ◌<◌};
ghost use Rattle.ibft_layout.specs.Layout.{named_count, word_at, slot_count, most_words};
ghost use Rattle.ibft_layout.specs.Shapes.{shape_of};
ghost use Rattle.ibft_table.specs.Table.{control_length, control_end_of, extra_words, word_count, start_at, kind_at, index_at, end_at};

use ibft_layout::control::Control;
use ibft_layout::layout::{NAMED_COUNT, index_of, kind_of};
use ibft_layout::nic::Nic;
use ibft_layout::shape::{INDEX_AT, Shape};
use ibft_layout::target::Target;
use octets::read::{byte_at, u16_at};

// Control's Length.
pub(crate) fn control_length(t: &[u8]) -> u16
    ensures { result ≡ control_length t.now }
{
    u16_at(t, Control::LENGTH_AT as usize)
}

// Where Control ends.
pub(crate) fn control_end(t: &[u8]) -> u32
    ensures { result ≡ control_end_of t.now }
{
    Control::AT as u32 + control_length(t) as u32
}

// How many extra words it has; twelve at most, whatever its Length says.
pub(crate) fn extra_words(t: &[u8]) -> u8
    ensures { (result ≡ extra_words t.now) × (result ≤ 12) }
{
    let length = control_length(t);
    if length < Control::LENGTH {
        return 0;
    }
    if Control::LONGEST < length {
        return Control::MOST_WORDS;
    }
    ((length - Control::LENGTH) / 2) as u8
}

// How many words there are in all.
pub(crate) fn word_count(t: &[u8]) -> u8
    ensures { (result ≡ word_count t.now) × (result ≤ 17) }
{
    NAMED_COUNT + extra_words(t)
}

// Where word w stands.
pub(crate) fn word_at(w: u8) -> u16
    ensures { result ≡ word_at w }
{
    Control::WORDS_AT + 2 * w as u16
}

// Where word w's structure starts; 0 where the word is not used.
pub(crate) fn start_at(t: &[u8], w: u8) -> u16
    ensures { result ≡ start_at t.now w }
{
    u16_at(t, word_at(w) as usize)
}

// Its kind: that of a named word is settled, an extra word's is what its structure says. (What is no NIC counts as a target.)
pub(crate) fn kind_at(t: &[u8], w: u8) -> Shape
    ensures { result ≡ shape_of (kind_at t.now w) }
{
    if w < NAMED_COUNT {
        return kind_of(w);
    }
    if byte_at(t, start_at(t, w) as usize) == Nic::ID {
        return Nic::SHAPE;
    }
    Target::SHAPE
}

// Its Index: that of a named word is settled, an extra word's is what its structure says.
pub(crate) fn index_at(t: &[u8], w: u8) -> u8
    ensures { result ≡ index_at t.now w }
{
    if w < NAMED_COUNT {
        return index_of(w);
    }
    byte_at(t, start_at(t, w) as usize + INDEX_AT as usize)
}

// Where named word w's structure ends. (A structure may start at 0xFFF8, so the end passes 16 bits.)
pub(crate) fn named_end(t: &[u8], w: u8) -> u32
    requires { w < named_count }
    ensures { result ≡ end_at t.now w }
{
    start_at(t, w) as u32 + kind_of(w).length as u32
}

// Where word w's structure ends.
pub(crate) fn end_at(t: &[u8], w: u8) -> u32
    ensures { result ≡ end_at t.now w }
{
    start_at(t, w) as u32 + kind_at(t, w).length as u32
}

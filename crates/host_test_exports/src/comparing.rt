// The comparing of two tables, as a number and as bytes, and the view of a difference.
ghost use Rattle.std.specs.Prelude.{◌≡◌, length};
ghost use Rattle.octets.specs.Octets.{write};
ghost use Rattle.ibft_compare.specs.Compare.{compared_of, difference_of, view_of};
ghost use Rattle.host_test_exports.specs.Puts.{Puts};
ghost use Rattle.host_test_exports.specs.Packed.{packed_side, packed_compared};
ghost use Rattle.host_test_exports.specs.Laid.{laid_name, laid_what, laid_stretch, laid_difference};

use crate::packed::packed_side;
use ibft_compare::compare::{compare, difference, difference_view};
use ibft_compare::difference::{Difference, DifferenceReading, Stretch};
use octets::write::{put_byte, put_bytes, put_u16, put_u32};

// How many differences there are.
#[unsafe(no_mangle)]
pub extern "C" fn test_compare(left: &[u8], right: &[u8]) -> u64
    ensures { result ≡ packed_compared (compared_of left.now right.now) }
{
    let compared = compare(left, right);
    packed_side(compared.refusal, compared.side) + 281474976710656 * compared.count as u64
}

// Writes the number of what differs, and what names it.
fn put_name(out: &mut [u8], number: u8, id: u8, index: u8, at: u16)
    ensures { Puts out.old out.new 0 5 (laid_name number id index at) }
{
    put_byte(out, 0, number);
    put_byte(out, 1, id);
    put_byte(out, 2, index);
    put_u16(out, 3, at);
}

// Writes what differs.
fn put_what(out: &mut [u8], difference: Difference)
    ensures { Puts out.old out.new 0 5 (laid_what difference) }
{
    match difference {
        Difference::Nothing => put_name(out, 0, 0, 0, 0),
        Difference::OemId => put_name(out, 1, 0, 0, 0),
        Difference::OemTableId => put_name(out, 2, 0, 0, 0),
        Difference::ControlFlags => put_name(out, 3, 0, 0, 0),
        Difference::Presence(id, index) => put_name(out, 4, id, index, 0),
        Difference::Field(id, index, at) => put_name(out, 5, id, index, at),
        Difference::Entry(id, index, at) => put_name(out, 6, id, index, at),
    }
}

// Writes a stretch's start and length.
fn put_stretch(out: &mut [u8], at: u16, s: Stretch)
    ensures { Puts out.old out.new at 6 (laid_stretch s) }
{
    put_u32(out, at as usize, s.start);
    put_u16(out, at as usize + 4, s.length);
}

// Writes what differs, and the stretches.
fn put_difference(out: &mut [u8], d: DifferenceReading)
    ensures { Puts out.old out.new 0 23 (laid_difference d) }
{
    let what = d.difference;
    put_what(out, what);
    put_stretch(out, 5, d.left);
    put_stretch(out, 11, d.right);
    put_stretch(out, 17, d.shown);
}

// Difference k.
#[unsafe(no_mangle)]
pub extern "C" fn test_difference(left: &[u8], right: &[u8], k: u16, out: &mut [u8]) -> u64
    ensures value { result ≡ packed_side (difference_of left.now right.now k).refusal
        (difference_of left.now right.now k).side }
    ensures out_after { out.new ≡ write out.old 0 (laid_difference (difference_of left.now right.now k)) }
{
    let read = difference(left, right, k);
    put_difference(out, read);
    packed_side(read.refusal, read.side)
}

// Writes the bytes shown of difference k, as far as they fit, and answers how many there are.
#[unsafe(no_mangle)]
pub extern "C" fn test_difference_view(left: &[u8], right: &[u8], k: u16, out: &mut [u8]) -> usize
    ensures value { result ≡ length (view_of left.now right.now k) }
    ensures written { out.new ≡ write out.old 0 (view_of left.now right.now k) }
{
    let view = difference_view(left, right, k);
    put_bytes(out, 0, view);
    view.len()
}

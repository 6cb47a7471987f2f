// Writers of the values that several kinds of structure hold. What would fall past the end of `out` is not written.
// A position is a `u8` or a `u16`, so that the one behind the value fits the next wider number. An array is passed by value,
// which tells its length; a caller copies it out of its struct first, since a field that is an array cannot be passed.
ghost use Rattle.std.specs.Prelude.{◌++◌};
ghost use Rattle.host_test_exports.specs.Laid.{laid_text};
ghost use Rattle.host_test_exports.specs.Puts.{Puts};

use ibft_layout::string_words::StringWords;
use octets::write::{put_bytes, put_u16};

pub(crate) fn put_six(out: &mut [u8], at: u16, a: [u8; 6])
    ensures { Puts out.old out.new at 6 a }
{
    put_bytes(out, at as usize, &a[..]);
}

pub(crate) fn put_eight(out: &mut [u8], at: u16, a: [u8; 8])
    ensures { Puts out.old out.new at 8 a }
{
    put_bytes(out, at as usize, &a[..]);
}

pub(crate) fn put_address(out: &mut [u8], at: u16, a: [u8; 16])
    ensures { Puts out.old out.new at 16 a }
{
    put_bytes(out, at as usize, &a[..]);
}

// Writes two addresses, one behind the other.
pub(crate) fn put_addresses(out: &mut [u8], at: u8, first: [u8; 16], second: [u8; 16])
    ensures { Puts out.old out.new at 32 (first ++ second) }
{
    put_address(out, at as u16, first);
    put_address(out, at as u16 + 16, second);
}

// Writes a string's length and offset.
pub(crate) fn put_text(out: &mut [u8], at: u16, s: StringWords)
    ensures { Puts out.old out.new at 4 (laid_text s) }
{
    put_u16(out, at as usize, s.length);
    put_u16(out, at as usize + 2, s.offset);
}

// Writes the words of two strings, one behind the other.
pub(crate) fn put_texts(out: &mut [u8], at: u8, first: StringWords, second: StringWords)
    ensures { Puts out.old out.new at 8 (laid_text first ++ laid_text second) }
{
    put_text(out, at as u16, first);
    put_text(out, at as u16 + 4, second);
}

// The write of an sBFT from an image of it: each part into its own stretch of the room, the checksum last.
ghost use Rattle.std.specs.Prelude.{◌≡◌, ◌++◌, cond, ◌≤◌, length, drop};
ghost use Rattle.octets.specs.Counting.{gather};
ghost use Rattle.octets.specs.Octets.{bytes_at, zeros, write};
ghost use Rattle.sbft.specs.Layout.{part_count, absent};
ghost use Rattle.sbft.specs.Write.{place_of, length_written, word_written, ib_written, table_of};
ghost use Rattle.sbft.specs.Promises.{Write};

use crate::fields::{Ib, Start};
use crate::layout::{Part, absent, part_of};
use octets::read::part;
use octets::write::{put_bytes, put_u16, put_zeros};
use scan::Family;
use table_header::write::{Written, check_write, put_checksum, put_header, written_of};

// The Length of the table that is written: 88, or 136 with the IB part.
fn length_written(image: &[u8]) -> u32
    ensures { result ≡ length_written image.now }
{
    let ib = part_of(Part::IB);
    if !absent(image, Part::IB) {
        return ib.place as u32 + ib.size as u32;
    }
    ib.place as u32
}

// The offset that is written of part k: 0 where it is absent.
fn offset_written(image: &[u8], k: u8) -> u16
    ensures { result ≡ cond (absent image.now k) 0 (place_of k) }
{
    if absent(image, k) {
        return 0;
    }
    part_of(k).place
}

// Writes the offsets, each where its part has it.
fn put_offsets(room: &mut [u8], image: &[u8])
    ensures { room.new ≡ write room.old 36 (gather (word_written image.now) 0 part_count) }
{
    for k in 0..Part::COUNT {
        put_u16(room, part_of(k).word as usize, offset_written(image, k));
    }
}

// Copies `count` bytes of the image to the same place in the room. (A byte that is not lent is 0.)
fn put_same(room: &mut [u8], image: &[u8], at: u16, count: u16)
    ensures { room.new ≡ write room.old at (bytes_at image.now at count) }
{
    let lent = part(image, at as usize, count as usize);
    put_bytes(room, at as usize, lent);
    put_zeros(room, at as usize + lent.len(), count as usize - lent.len());
}

// Writes the IB part where the image has one, its reserved bytes zero.
fn put_ib(room: &mut [u8], image: &[u8])
    ensures { room.new ≡ write room.old 88 (ib_written image.now) }
{
    if absent(image, Part::IB) {
        return;
    }
    let place = part_of(Part::IB).place;
    put_same(room, image, place, Ib::RESERVED_AT as u16);
    put_zeros(
        room,
        place as usize + Ib::RESERVED_AT as usize,
        Ib::RESERVED as usize,
    );
}

// Writes what stands behind the header.
fn put_behind(room: &mut [u8], image: &[u8])
    ensures { room.new ≡ write room.old 24 (zeros 12
        ++ (gather (word_written image.now) 0 part_count
        ++ (zeros 6
        ++ (bytes_at image.now 48 8 ++ (bytes_at image.now 56 32 ++ ib_written image.now))))) }
{
    put_zeros(room, Start::RESERVED_AT as usize, Start::RESERVED as usize);
    put_offsets(room, image);
    put_zeros(
        room,
        Start::LAST_RESERVED_AT as usize,
        Start::LAST_RESERVED as usize,
    );
    let scsi = part_of(Part::SCSI);
    put_same(room, image, scsi.place, scsi.size);
    let srp = part_of(Part::SRP);
    put_same(room, image, srp.place, srp.size);
    put_ib(room, image);
}

// Writes the table of this Length, which lies in the room.
fn put_table(room: &mut [u8], image: &[u8], size: u32)
    requires { (size ≡ length_written image.now) × (size ≤ length room.old) }
    ensures { room.new ≡ table_of image.now ++ drop (length (table_of image.now)) room.old }
{
    put_header(room, Family::SBFT.signature, size, image);
    put_behind(room, image);
    put_checksum(room, size as usize);
}

// The table of the image's record into the room; the room is left as it is where the write is refused.
pub fn write(image: &[u8], room: &mut [u8]) -> Written
    ensures { Write image.now room.old result room.new }
{
    let size = length_written(image);
    let verdict = check_write(image, size, room.len());
    if let Err(_) = verdict {
        return written_of(verdict, size);
    }
    put_table(room, image, size);
    written_of(verdict, size)
}

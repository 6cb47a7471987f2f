// Writing an aBFT. The record is given as an image of the table: each field at its own place, no other byte is looked at, and a
// byte that is not lent is 0.
ghost use Rattle.std.specs.Prelude.{◌≡◌, ◌∷◌, ◌++◌, ◌≤◌, length, drop};
ghost use Rattle.octets.specs.Octets.{bytes_at, zeros, write};
ghost use Rattle.scan.specs.Scan.{abft};
ghost use Rattle.abft.specs.Abft.{table_of};
ghost use Rattle.abft.specs.Promises.{Write};

use crate::fields::Abft;
use octets::read::{array_at, byte_at};
use octets::write::{put_byte, put_bytes, put_zeros};
use table_header::write::{Written, check_write, put_checksum, put_header, written_of};

// The bytes of shelf and slot, as the image has them.
fn shelf_and_slot(image: &[u8]) -> [u8; 3]
    ensures { result ≡ bytes_at image.now 36 3 }
{
    [
        byte_at(image, Abft::SHELF_AT as usize),
        byte_at(image, Abft::SHELF_AT as usize + 1),
        byte_at(image, Abft::SLOT_AT as usize),
    ]
}

// Writes what stands behind the header: the fields, and the reserved bytes as zeros.
fn put_fields(room: &mut [u8], image: &[u8])
    ensures { room.new ≡ write room.old 24
        (zeros 12 ++ (bytes_at image.now 36 3 ++ (0 ∷ bytes_at image.now 40 6))) }
{
    put_zeros(
        room,
        Abft::RESERVED_AT as usize,
        Abft::RESERVED_SIZE as usize,
    );
    let target = shelf_and_slot(image);
    put_bytes(room, Abft::SHELF_AT as usize, &target);
    put_byte(room, Abft::SECOND_RESERVED_AT as usize, 0);
    let mac = array_at::<6>(image, Abft::MAC_AT as usize);
    put_bytes(room, Abft::MAC_AT as usize, &mac);
}

// Writes the table into a room that takes it. Room past Length keeps its bytes.
fn put_table(room: &mut [u8], image: &[u8])
    requires { abft.least ≤ length room.old }
    ensures { room.new ≡ table_of image.now ++ drop (length (table_of image.now)) room.old }
{
    put_header(room, Abft::SIGNATURE, Abft::LENGTH, image);
    put_fields(room, image);
    put_checksum(room, Abft::LENGTH as usize);
}

// Writes the table of the image's record into the room, or refuses and leaves the room as it was.
pub fn write(image: &[u8], room: &mut [u8]) -> Written
    ensures { Write image.now room.old result room.new }
{
    let verdict = check_write(image, Abft::LENGTH, room.len());
    if let Err(_) = verdict {
        return written_of(verdict, Abft::LENGTH);
    }
    put_table(room, image);
    written_of(verdict, Abft::LENGTH)
}

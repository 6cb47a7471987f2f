// Writing a whole table into the lent room: the header, the checksum, what every write answers.
ghost use Rattle.std.specs.Prelude.{◌≡◌, [], ◌∷◌, take};
ghost use Rattle.octets.specs.Octets.{bytes_at, checksum, write};
ghost use Rattle.table_header.specs.Verdict.{first_of};
ghost use Rattle.table_header.specs.Header.{header_start, headed};
ghost use Rattle.table_header.specs.Write.{write_tests, written_from};

use crate::header::{CHECKSUM_AT, OEM_ID_AT, OEM_TABLE_ID_AT, REVISION, check_oem};
use crate::verdict::{ACCEPTED, Refusal, Verdict, refuse};
use octets::read::{array_at, part};
use octets::sum::checksum;
use octets::write::{put_byte, put_bytes};

// What a write answers: its refusal (all 0 where it is accepted) and the table's Length.
// (No Result: the promises speak of both numbers in every case, and C is handed them.)
#[derive(Clone, Copy)]
pub struct Written {
    pub refusal: Refusal,
    pub length: u32,
}

// The verdict of a write of a table of `size` bytes into a room of so many, the OEM fields as the image has them: 8, then 21.
pub fn check_write(image: &[u8], size: u32, room: usize) -> Verdict
    ensures { result ≡ first_of (write_tests (bytes_at image.now 10 6) (bytes_at image.now 16 8) size room) }
{
    check_oem(image)?;
    if room < size as usize {
        return refuse(21, 0);
    }
    Ok(())
}

// What a write of a table of `size` bytes with this verdict answers.
pub fn written_of(verdict: Verdict, size: u32) -> Written
    ensures { result ≡ written_from size verdict }
{
    match verdict {
        Ok(()) => Written {
            refusal: ACCEPTED,
            length: size,
        },
        Err(refusal) => Written { refusal, length: 0 },
    }
}

// The header up to the OEM fields: signature, Length, Revision, and the checksum, which comes last.
pub fn header_start(signature: u32, size: u32) -> [u8; 10]
    ensures { result ≡ header_start signature size }
{
    let s = signature.to_le_bytes();
    let n = size.to_le_bytes();
    [s[0], s[1], s[2], s[3], n[0], n[1], n[2], n[3], REVISION, 0]
}

// Writes the header of a table of this Length, the OEM fields as the image has them. What would fall past the room is not
// written.
pub fn put_header(room: &mut [u8], signature: u32, size: u32, image: &[u8])
    ensures { room.new ≡ write room.old 0
        (headed signature size (bytes_at image.now 10 6) (bytes_at image.now 16 8) []) }
{
    let start = header_start(signature, size);
    put_bytes(room, 0, &start);
    let oem_id = array_at::<6>(image, OEM_ID_AT as usize);
    put_bytes(room, OEM_ID_AT as usize, &oem_id);
    let oem_table_id = array_at::<8>(image, OEM_TABLE_ID_AT as usize);
    put_bytes(room, OEM_TABLE_ID_AT as usize, &oem_table_id);
}

// Sets the checksum of the table that the first `size` bytes are.
pub fn put_checksum(room: &mut [u8], size: usize)
    ensures { room.new ≡ write room.old 9 (checksum (take size room.old) 9 ∷ []) }
{
    let byte = checksum(part(room, 0, size), CHECKSUM_AT as usize);
    put_byte(room, CHECKSUM_AT as usize, byte);
}

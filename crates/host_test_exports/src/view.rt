// The views of a table. A call for C cannot return a part of a slice, so it copies what the view shows.
ghost use Rattle.std.specs.Prelude.{◌≡◌, length};
ghost use Rattle.octets.specs.Octets.{write};
ghost use Rattle.ibft_readings.specs.Readings.{structure_view_of, view_of};

use ibft_readings::entry::entry_view;
use ibft_readings::structure::structure_view;
use octets::write::put_bytes;

// Writes the table from the structure of a slot on, as far as it fits, and answers how many bytes it has.
#[unsafe(no_mangle)]
pub extern "C" fn test_structure_view(t: &[u8], slot: u8, out: &mut [u8]) -> usize
    ensures value { result ≡ length (structure_view_of t.now slot) }
    ensures written { out.new ≡ write out.old 0 (structure_view_of t.now slot) }
{
    let view = structure_view(t, slot);
    put_bytes(out, 0, view);
    view.len()
}

// Writes the bytes of entry n, as far as they fit, and answers how many it has.
#[unsafe(no_mangle)]
pub extern "C" fn test_entry_view(t: &[u8], n: u8, out: &mut [u8]) -> usize
    ensures value { result ≡ length (view_of t.now n) }
    ensures written { out.new ≡ write out.old 0 (view_of t.now n) }
{
    let view = entry_view(t, n);
    put_bytes(out, 0, view);
    view.len()
}

// MAC addresses as they are written: six pairs of hexadecimal digits with colons between.
ghost use Rattle.std.specs.Prelude.{◌≡◌};
ghost use Rattle.text.specs.Put.{Puts};
ghost use Rattle.notation.specs.Mac.{read_mac, mac_text};

use crate::pairs::{put_pairs, read_pairs};

// The six bytes that s says.
pub fn read_mac(s: &[u8]) -> Option<[u8; 6]>
    ensures { result ≡ read_mac s.now }
{
    let mut bytes = [0u8; 6];
    if read_pairs(s, &mut bytes) {
        Some(bytes)
    } else {
        None
    }
}

// Puts the text of the six bytes at `at`, a byte that is missing as 0; answers the place behind it.
pub fn put_mac(room: &mut [u8], at: usize, bytes: &[u8]) -> usize
    ensures { Puts room.old room.new at result (mac_text bytes.now) }
{
    put_pairs(room, at, 6, bytes)
}

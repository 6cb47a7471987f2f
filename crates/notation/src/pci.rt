// PCI addresses as they are written: bus, device and function, `00:03.1`.
ghost use Rattle.std.specs.Prelude.{◌≡◌};
ghost use Rattle.text.specs.Put.{Puts};
ghost use Rattle.notation.specs.Pci.{pci_form, device_function, read_pci, function_text, device_text, pci_text};

use crate::number::{digit_byte, digit_value, put_hex_byte, read_hex_byte};
use octets::read::byte_at;
use text::put::put_char;

// Whether s has seven bytes, with a colon behind the bus and a dot behind the device.
#[tactic(auto, unfolding(crate::specs::Pci::pci_form))]
fn pci_form(s: &[u8]) -> bool
    ensures { result ≡ pci_form s.now }
{
    matches!(s, [_, _, b':', _, _, b'.', _])
}

// The device and the function that s says, as device x 8 + function.
fn read_device_function(s: &[u8]) -> Option<u64>
    ensures { result ≡ device_function s.now }
{
    let device = read_hex_byte(s, 3)?;
    if 31 < device {
        return None;
    }
    let function = digit_value(8, byte_at(s, 6))?;
    Some(device << 3 | function)
}

// The word that s says: bus x 256 + device x 8 + function.
pub fn read_pci(s: &[u8]) -> Option<u16>
    ensures { result ≡ read_pci s.now }
{
    if !pci_form(s) {
        return None;
    }
    let bus = read_hex_byte(s, 0)?;
    let rest = read_device_function(s)?;
    Some((bus << 8 | rest) as u16)
}

// Puts a dot and the function's digit at `at`; answers the place behind them.
fn put_function(room: &mut [u8], at: usize, word: u16) -> usize
    ensures { Puts room.old room.new at result (function_text word) }
{
    let next = put_char(room, at, b'.');
    put_char(room, next, digit_byte((word & 7) as u64))
}

// Puts a colon, the device and the function at `at`; answers the place behind them.
fn put_device(room: &mut [u8], at: usize, word: u16) -> usize
    ensures { Puts room.old room.new at result (device_text word) }
{
    let device = put_char(room, at, b':');
    let next = put_hex_byte(room, device, (word >> 3 & 31) as u8);
    put_function(room, next, word)
}

// Puts the text of the word at `at`; answers the place behind it.
pub fn put_pci(room: &mut [u8], at: usize, word: u16) -> usize
    ensures { Puts room.old room.new at result (pci_text word) }
{
    let next = put_hex_byte(room, at, (word >> 8) as u8);
    put_device(room, next, word)
}

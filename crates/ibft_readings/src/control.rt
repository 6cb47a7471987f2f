// The Control structure of a table.
ghost use Rattle.std.specs.Prelude.{◌≡◌, ◌+◌};
ghost use Rattle.octets.specs.Octets.{byte};
ghost use Rattle.ibft_layout.specs.Layout.{control_at, flags_at};
ghost use Rattle.ibft_readings.specs.Readings.{control_in};

use ibft_layout::control::Control;
use ibft_layout::shape::FLAGS_AT;
use octets::read::{byte_at, part};

// The fields of the Control structure whose first byte is the part's.
fn control_in(part: &[u8]) -> Control
    ensures { result ≡ control_in part.now }
{
    Control {
        flags: byte_at(part, FLAGS_AT as usize),
    }
}

// Those of the table's: it is read from 48 on, behind the header.
pub(crate) fn control_of(t: &[u8]) -> Control
    ensures { result.flags ≡ byte t.now (control_at + 5) }
{
    control_in(part(t, Control::AT as usize, t.len()))
}

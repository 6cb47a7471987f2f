// The reading of the header, with Control's flags.
ghost use Rattle.std.specs.Prelude.{◌≡◌};
ghost use Rattle.ibft_readings.specs.Readings.{header_in, header_of};

use crate::control::control_of;
use ibft_layout::header::Header;
use ibft_table::check::check;
use octets::read::array_at;
use table_header::header::{OEM_ID_AT, OEM_TABLE_ID_AT};
use table_header::verdict::{Refusal, refusal_of, shown_of};

// The header of the table, with the flags of the Control structure behind it.
fn header_in(t: &[u8]) -> Header
    ensures { result ≡ header_in t.now }
{
    Header {
        oem_id: array_at(t, OEM_ID_AT as usize),
        oem_table_id: array_at(t, OEM_TABLE_ID_AT as usize),
        flags: control_of(t).flags,
    }
}

#[derive(Clone, Copy)]
pub struct HeaderReading {
    pub refusal: Refusal,
    pub header: Header,
}

// The header of a table that the check accepts.
pub fn read_header(t: &[u8]) -> HeaderReading
    ensures { result ≡ header_of t.now }
{
    let verdict = check(t);
    HeaderReading {
        refusal: refusal_of(verdict),
        header: header_in(shown_of(verdict, t)),
    }
}

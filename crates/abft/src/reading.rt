// The reading of an aBFT.
ghost use Rattle.std.specs.Prelude.{◌≡◌};
ghost use Rattle.abft.specs.Abft.{abft_of};

use crate::check::check;
use crate::fields::Abft;
use table_header::verdict::{Refusal, refusal_of, shown_of};

// (Fields beside a refusal, and no Result: the promises and the exports for C give a refused reading with every field 0.)
#[derive(Clone, Copy)]
pub struct AbftReading {
    pub refusal: Refusal,
    pub fields: Abft,
}

// The fields of a table that the check accepts.
pub fn read_abft(t: &[u8]) -> AbftReading
    ensures { result ≡ abft_of t.now }
{
    let verdict = check(t);
    AbftReading {
        refusal: refusal_of(verdict),
        fields: Abft::read(shown_of(verdict, t)),
    }
}

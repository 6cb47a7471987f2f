// The check of an aBFT: refusals 3 to 8, then 30, the first that applies.
ghost use Rattle.abft.specs.Promises.{Check};

use crate::fields::Abft;
use table_header::header::{check_header, check_reserved};
use table_header::verdict::Verdict;

pub fn check(t: &[u8]) -> Verdict
    ensures { Check t.now result }
{
    check_header(t, Abft::SIGNATURE, Abft::LENGTH as usize, Abft::LENGTH)?;
    check_reserved(t, 0, Abft::RESERVED_AT, Abft::RESERVED_SIZE)?;
    check_reserved(t, 0, Abft::SECOND_RESERVED_AT, 1)
}

// What a build refuses of a record: 25, 8, 34, 13, 33, 10, 19, 24, 17, 20 and 18, the first that applies. Want of room (21)
// comes behind them all: it takes a record whose contents are good to say how long its table is.
ghost use Rattle.std.specs.Prelude.{◌≡◌};
ghost use Rattle.ibft_build_rules.specs.Refusals.{contents_verdict};

use crate::refusals_extras::extras_verdict;
use crate::refusals_images::{flags_verdict, images_verdict};
use crate::refusals_range::range_verdict;
use crate::refusals_strings::strings_verdict;
use table_header::verdict::Verdict;

pub fn contents_verdict(range: &[u8], strings: &[u8]) -> Verdict
    ensures { result ≡ contents_verdict range.now strings.now }
{
    range_verdict(range)?;
    extras_verdict(range)?;
    flags_verdict(range)?;
    images_verdict(range)?;
    strings_verdict(range, strings)
}

// What all readings of a table share: the check comes first.
ghost use Rattle.std.specs.Prelude.{◌≡◌, [], ◌∷◌, ◌++◌};
ghost use Rattle.ibft_table.specs.Check.{check_tests};
ghost use Rattle.table_header.specs.Verdict.{refuse, first_of};

use ibft_table::check::check;
use table_header::verdict::{Verdict, refuse};

// The verdict of a reading: the check's, then 23 where nothing has the number asked for, then 22 where what has it is missing.
pub(crate) fn verdict_of(t: &[u8], beyond: bool, missing: bool) -> Verdict
    ensures { result ≡ first_of (check_tests t.now ++ (refuse 23 0 beyond ∷ refuse 22 0 missing ∷ [])) }
{
    check(t)?;
    if beyond {
        return refuse(23, 0);
    }
    if missing {
        return refuse(22, 0);
    }
    Ok(())
}

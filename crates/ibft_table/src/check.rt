// The check of a table: refusals 3 to 19, 33 and 34, the first that applies.
ghost use Rattle.std.specs.Prelude.{◌≡◌, ◌++◌};
ghost use Rattle.octets.specs.Counting.{gather};
ghost use Rattle.ibft_layout.specs.Layout.{entry_count};
ghost use Rattle.table_header.specs.Verdict.{first_of};
ghost use Rattle.ibft_table.specs.Table.{word_count, starts_of};
ghost use Rattle.ibft_table.specs.Check.{control_tests, word_tests, overlap_tests, entry_tests};
ghost use Rattle.ibft_table.specs.Promises.{Check};

use crate::check_control::check_control;
use crate::check_entries::check_entries;
use crate::check_overlaps::check_overlaps;
use crate::check_words::check_words;
use crate::measured::Measured;
use ibft_layout::control::Control;
use ibft_layout::header::Header;
use table_header::header::check_header;
use table_header::verdict::Verdict;

// The header, and a table in which nothing is present: Control stands behind the header, and the table ends with it.
const LEAST_LENT: usize = Control::AT as usize;

const LEAST_LENGTH: u32 = Control::END as u32;

// What comes behind the header. (Two functions: LLVM takes a call behind four tests for a rare one, and would leave the loop
// over the entries out of line, by which the check of a common table takes a fifth longer.)
fn check_measured(table: Measured) -> Verdict
    ensures { result ≡ first_of (
        control_tests table.entry.t.now
        ++ (gather (word_tests table.entry.t.now) 0 (word_count table.entry.t.now)
        ++ (gather (overlap_tests table.entry.t.now) 0 (word_count table.entry.t.now)
        ++ gather (entry_tests (starts_of table.entry.t.now) table.entry.t.now) 0 entry_count))) }
{
    check_control(table)?;
    check_words(table)?;
    check_overlaps(table)?;
    check_entries(table)
}

// The header, then the rest.
pub fn check(t: &[u8]) -> Verdict
    ensures { Check t.now result }
{
    check_header(t, Header::SIGNATURE, LEAST_LENT, LEAST_LENGTH)?;
    check_measured(Measured::of(t))
}

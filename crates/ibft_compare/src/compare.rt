// Compares two tables: how many differences there are, and each of them by its number. Every call checks both tables, the left
// one first.
ghost use Rattle.std.specs.Prelude.{◌≡◌, ◌<◌};
ghost use Rattle.ibft_table.specs.Check.{check_of};
ghost use Rattle.ibft_compare.specs.Compare.{verdict_of, side_of, difference_of};
ghost use Rattle.ibft_compare.specs.Walk.{part_shown, shown_by};
ghost use Rattle.ibft_compare.specs.Promises.{Compares, DifferenceView};

use crate::difference::{Compared, Difference, DifferenceReading, Stretch, no_stretch};
use crate::unequal::first_unequal;
use crate::walk::meet_all;
use ibft_table::check::check;
use octets::read::part;
use table_header::verdict::{ACCEPTED, Verdict};

// The verdict on two tables, the left one's refusal first, and whose it is.
// (The side stands beside it, since `Compared` and `DifferenceReading` have one in every case.)
#[derive(Clone, Copy)]
struct Judged {
    verdict: Verdict,
    side: u8,
}

fn judge(left: &[u8], right: &[u8]) -> Judged
    ensures { (result.verdict ≡ verdict_of left.now right.now)
        × (result.side ≡ side_of (check_of left.now) (check_of right.now)) }
{
    let verdict = check(left);
    if let Err(_) = verdict {
        return Judged { verdict, side: 0 };
    }
    let verdict = check(right);
    match verdict {
        Ok(()) => Judged { verdict, side: 0 },
        Err(_) => Judged { verdict, side: 1 },
    }
}

// How many differences there are.
pub fn compare(left: &[u8], right: &[u8]) -> Compared
    ensures { Compares left.now right.now result }
{
    let judged = judge(left, right);
    let side = judged.side;
    let verdict = judged.verdict;
    match verdict {
        Ok(()) => Compared {
            refusal: ACCEPTED,
            side,
            count: meet_all(left, right, 0).count,
        },
        Err(refusal) => Compared {
            refusal,
            side,
            count: 0,
        },
    }
}

// The bytes of the left string from the first unequal one on; all of them where the right table has no such string.
fn unequal_part(left: &[u8], l: Stretch, right: &[u8], r: Stretch) -> Stretch
    requires { l.start < 65536 }
    ensures { result ≡ part_shown left.now l right.now r }
{
    if l.start == 0 {
        return no_stretch();
    }
    if r.start == 0 {
        return l;
    }
    let k = first_unequal(
        part(left, l.start as usize, l.length as usize),
        part(right, r.start as usize, r.length as usize),
    );
    Stretch {
        start: l.start + k as u32,
        length: l.length - k as u16,
    }
}

// What is shown of a difference: something only of an entry.
fn shown_of(left: &[u8], l: Stretch, right: &[u8], r: Stretch, difference: Difference) -> Stretch
    requires { (shown_by difference l).start < 65536 }
    ensures { result ≡ shown_by difference (part_shown left.now l right.now r) }
{
    match difference {
        Difference::Entry(_, _, _) => unequal_part(left, l, right, r),
        _ => no_stretch(),
    }
}

// Difference k, counted from 0; past the last, nothing.
pub fn difference(left: &[u8], right: &[u8], k: u16) -> DifferenceReading
    ensures { result ≡ difference_of left.now right.now k }
{
    let judged = judge(left, right);
    let side = judged.side;
    let verdict = judged.verdict;
    match verdict {
        Ok(()) => {
            let met = meet_all(left, right, k);
            let difference = met.difference;
            let l = met.left;
            let r = met.right;
            let shown = shown_of(left, l, right, r, difference);
            DifferenceReading {
                refusal: ACCEPTED,
                side,
                difference,
                left: l,
                right: r,
                shown,
            }
        }
        Err(refusal) => DifferenceReading {
            refusal,
            side,
            difference: Difference::Nothing,
            left: no_stretch(),
            right: no_stretch(),
            shown: no_stretch(),
        },
    }
}

// The differing bytes of difference k, shown as that stretch of the left table and not copied; no bytes where nothing is shown.
pub fn difference_view<'a, 'b>(left: &'a [u8], right: &'b [u8], k: u16) -> &'a [u8]
    ensures { DifferenceView left.entry right.now k result }
{
    let shown = difference(left, right, k).shown;
    part(left, shown.start as usize, shown.length as usize)
}

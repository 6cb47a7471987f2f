// Where structures stand: in the build's order, each at the next multiple of 8 behind the one before, the first behind Control.
ghost use Rattle.std.specs.Prelude.{◌≡◌, cond, ◌+◌, ◌≤◌, ◌<◌};
ghost use Rattle.string_heap.specs.Starts.{align8};
ghost use Rattle.ibft_layout.specs.Layout.{kind_of, slot_count, named_count, control_end, built_slot, least_length, most_words};
ghost use Rattle.ibft_build_rules.specs.RecordRange.{structure_given};
ghost use Rattle.ibft_build_rules.specs.Plan.{turn_of};
ghost use Rattle.ibft_record.specs.Limits.{extras_given};
ghost use Rattle.ibft_build.specs.Planning.{structure_ends, structure_start};

use crate::plan::Plan;
use ibft_build_rules::range::structure_given;
use ibft_layout::control::Control;
use ibft_layout::layout::{EXTRA_MOST, SLOT_COUNT, kind_of};
use ibft_record::record::extras_given;

// The turns of the first extra NIC, of Target 0 and of the first extra target in the build's order.
pub(crate) const EXTRA_NIC_TURN: u8 = 3;

pub(crate) const TARGET_TURN: u8 = EXTRA_NIC_TURN + EXTRA_MOST;

pub(crate) const EXTRA_TARGET_TURN: u8 = TARGET_TURN + 2;

// The slot that is j-th in the build's order: initiator, all NICs by Index, all targets by Index; past the last, slot 0.
#[tactic(auto, unfolding(ibft_layout::specs::Layout::built_slot))]
pub(crate) fn built_slot(j: u8) -> u8
    ensures { (result ≡ built_slot j) × (result < slot_count) }
{
    match j {
        1 => 1,
        2 => 3,
        3 => 5,
        4 => 6,
        5 => 7,
        6 => 8,
        7 => 9,
        8 => 10,
        9 => 2,
        10 => 4,
        11 => 11,
        12 => 12,
        13 => 13,
        14 => 14,
        15 => 15,
        16 => 16,
        _ => 0,
    }
}

// Slot k's turn in the build's order; past the last slot, none of them.
#[tactic(auto, unfolding(ibft_build_rules::specs::Plan::turn_of, octets::specs::Counting::first, ibft_layout::specs::Layout::built_slot))]
fn turn_of(k: u8) -> u8
    ensures { (result ≡ turn_of k) × (result ≤ slot_count) }
{
    match k {
        0 => 0,
        1 => 1,
        2 => 9,
        3 => 2,
        4 => 10,
        5 => 3,
        6 => 4,
        7 => 5,
        8 => 6,
        9 => 7,
        10 => 8,
        11 => 11,
        12 => 12,
        13 => 13,
        14 => 14,
        15 => 15,
        16 => 16,
        _ => SLOT_COUNT,
    }
}

// Where Control ends: it has a word more for each extra.
pub(crate) fn control_end(range: &[u8]) -> u16
    ensures { (result ≡ control_end (extras_given range.now)) × (66 ≤ result) × (result ≤ 90) }
{
    Control::END + 2 * extras_given(range) as u16
}

// The next multiple of 8.
pub(crate) fn aligned(place: u16) -> u16
    requires { place ≤ 65528 }
    ensures { result ≡ align8 place }
{
    (place + 7) / 8 * 8
}

// Where the structures end, the j-th of the build's order behind those that end at `end`.
fn end_after(range: &[u8], end: u16, j: u8) -> u16
    requires { end ≤ 2000 }
    ensures { result ≡ cond (structure_given range.now (built_slot j)) (align8 end + (kind_of (built_slot j)).length) end }
{
    let k = built_slot(j);
    if structure_given(range, k) {
        return aligned(end) + kind_of(k).length;
    }
    end
}

// The same for the turn of an extra. (Without extras there is nothing to look at.)
fn end_after_extra(range: &[u8], end: u16, j: u8) -> u16
    requires { (end ≤ 2000) × (named_count ≤ built_slot j) }
    ensures { result ≡ cond (structure_given range.now (built_slot j)) (align8 end + (kind_of (built_slot j)).length) end }
{
    if extras_given(range) == 0 {
        return end;
    }
    end_after(range, end, j)
}

// Where the first j structures of the build's order end, for each j up to all of them: the last is where the heap starts. (The
// turns of named slots have loops of their own, so that LLVM unrolls them.)
pub(crate) fn structure_ends(range: &[u8]) -> [u16; SLOT_COUNT as usize + 1]
    ensures { result ≡ structure_ends range.now }
{
    let start = control_end(range);
    let mut ends = [start; SLOT_COUNT as usize + 1];
    for j in 0..EXTRA_NIC_TURN {
        ends[j as usize + 1] = end_after(range, ends[j as usize], j);
    }
    for j in EXTRA_NIC_TURN..TARGET_TURN {
        ends[j as usize + 1] = end_after_extra(range, ends[j as usize], j);
    }
    for j in TARGET_TURN..EXTRA_TARGET_TURN {
        ends[j as usize + 1] = end_after(range, ends[j as usize], j);
    }
    for j in EXTRA_TARGET_TURN..SLOT_COUNT {
        ends[j as usize + 1] = end_after_extra(range, ends[j as usize], j);
    }
    ends
}

impl<'a> Plan<'a> {
    // Where slot k's structure starts; 0 where it is absent.
    pub(crate) fn structure_start(&self, k: u8) -> u16
        ensures { result ≡ structure_start self.now.entries.range.now k }
    {
        if structure_given(self.entries.range, k) {
            return aligned(self.ends[turn_of(k) as usize]);
        }
        0
    }
}

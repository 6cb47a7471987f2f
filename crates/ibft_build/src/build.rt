// The build. Refusals of the contents come first, then the plan (where structures end; of each entry where the range holds its
// words, what it would take in the heap, what it takes there), which settles Length, then want of room; only then is the first
// byte written.
ghost use Rattle.std.specs.Prelude.{◌≡◌};
ghost use Rattle.table_header.specs.Verdict.{Accepted};
ghost use Rattle.ibft_build_rules.specs.Refusals.{contents_verdict};
ghost use Rattle.ibft_build_rules.specs.Promises.{Promise};
ghost use Rattle.ibft_build.specs.Planning.{Ends};

use crate::plan::{Entries, Heap, Plan};
use crate::starts::structure_ends;
use crate::stored::{entry_fields, wanted_sizes};
use ibft_build_rules::Built;
use ibft_layout::layout::{ENTRY_COUNT, SLOT_COUNT};
use ibft_record::record::entry_limit;
use ibft_record::refusals::contents_verdict;
use table_header::verdict::{ACCEPTED, Refusal, Verdict};

// The build of contents that are not refused.
fn build_contents(range: &[u8], strings: &[u8], room: &mut [u8]) -> Built
    requires { contents_verdict range.now strings.now ≡ Accepted }
    ensures { Ends range.now strings.now room.old result room.new }
{
    let limit = entry_limit(range);
    let mut fields = [0u16; ENTRY_COUNT as usize];
    entry_fields(range, limit, &mut fields);
    let mut wanted = [0u16; ENTRY_COUNT as usize];
    wanted_sizes(range, limit, &mut wanted);
    let entries = Entries {
        range,
        strings,
        limit,
        fields: &fields,
        wanted: &wanted,
    };
    let ends = structure_ends(range);
    let mut sizes = [0u16; ENTRY_COUNT as usize];
    entries.heap_sizes(&mut sizes);
    let heap = Heap {
        entries,
        start: ends[SLOT_COUNT as usize],
        sizes: &sizes,
    };
    let length = heap.end();
    if room.len() < length as usize {
        return Built {
            refusal: Refusal {
                number: 21,
                place: 0,
                checksum: 0,
            },
            length: 0,
        };
    }
    let mut offsets = [0u16; ENTRY_COUNT as usize];
    heap.entry_offsets(&mut offsets);
    let plan = Plan {
        entries,
        ends: &ends,
        sizes: &sizes,
        offsets: &offsets,
        length,
    };
    plan.put_table(room);
    Built {
        refusal: ACCEPTED,
        length,
    }
}

// Builds the table of the record that the range and the strings give into the room, or refuses and leaves the room as it was.
pub fn build(range: &[u8], strings: &[u8], room: &mut [u8]) -> Built
    ensures { Promise range.now strings.now room.old result room.new }
{
    match contents_verdict(range, strings) {
        Ok(()) => build_contents(range, strings, room),
        Err(refusal) => Built { refusal, length: 0 },
    }
}

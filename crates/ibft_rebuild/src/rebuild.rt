// The rebuild. The check comes first; what it accepts, a build of the table's record range refuses for nothing but a zero byte
// in a string (20) or want of room (21).
ghost use Rattle.std.specs.Prelude.{◌≡◌, length};
ghost use Rattle.ibft_table.specs.Check.{check_of};
ghost use Rattle.table_header.specs.Verdict.{Accepted};
ghost use Rattle.ibft_build_rules.specs.Rebuild.{rebuild_answer, rebuild_room};
ghost use Rattle.ibft_build_rules.specs.RebuildPromises.{Rebuild};

use crate::range::Source;
use ibft_build::build::build;
use ibft_build_rules::Built;
use ibft_build_rules::range::LARGEST_SIZE;
use ibft_table::check::check;
use ibft_table::seats::starts_of;
use table_header::verdict::Verdict;

// The rebuild of a table that the check accepts.
fn rebuild_accepted(table: &[u8], room: &mut [u8]) -> Built
    requires { check_of table.now ≡ Accepted }
    ensures { (result ≡ rebuild_answer table.now (length room.old))
        × (room.new ≡ rebuild_room table.now room.old) }
{
    let mut range = [0u8; LARGEST_SIZE as usize];
    let starts = starts_of(table);
    let source = Source {
        table,
        starts: &starts,
    };
    let size = source.put_range(&mut range);
    build(&range[..size], table, room)
}

// Builds the record of a table into the room, or refuses and leaves the room as it was. The strings are read where they lie.
pub fn rebuild(table: &[u8], room: &mut [u8]) -> Built
    ensures { Rebuild table.now room.old result room.new }
{
    match check(table) {
        Ok(()) => rebuild_accepted(table, room),
        Err(refusal) => Built { refusal, length: 0 },
    }
}

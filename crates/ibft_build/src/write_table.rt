// The whole table into the room: header, Control, structures, heap, each into its own stretch, and the checksum last.
ghost use Rattle.std.specs.Prelude.{◌≡◌, ◌++◌, ◌≤◌, length, drop};
ghost use Rattle.octets.specs.Octets.{write};
ghost use Rattle.ibft_layout.specs.Layout.{control_end};
ghost use Rattle.ibft_build_rules.specs.RecordRange.{content_given};
ghost use Rattle.ibft_build_rules.specs.Plan.{length_built};
ghost use Rattle.ibft_build_rules.specs.TableBytes.{bare_table, table_of};
ghost use Rattle.ibft_record.specs.Limits.{extras_given};
ghost use Rattle.ibft_build.specs.Writing.{header_with, control_with};

use crate::plan::Plan;
use crate::starts::control_end;
use crate::write_header::put_header;
use ibft_layout::layout::SLOT_COUNT;
use table_header::write::put_checksum;

impl<'a> Plan<'a> {
    // Writes the header and Control.
    fn put_front(&self, room: &mut [u8])
        requires { control_end (extras_given self.now.entries.range.now) ≤ length room.old }
        ensures { room.new ≡ write room.old 0
            (header_with self.now.entries.range.now self.now.length ++ control_with self.now.entries.range.now) }
    {
        put_header(&mut room[0..48], self.entries.range, self.length);
        let end = control_end(self.entries.range) as usize;
        self.put_control(&mut room[48..end]);
    }

    // Writes all but the checksum.
    fn put_bare(&self, room: &mut [u8])
        requires { self.now.length ≤ length room.old }
        ensures { room.new ≡ write room.old 0
            (bare_table (content_given self.now.entries.range.now self.now.entries.strings.now)) }
    {
        self.put_front(room);
        self.put_structures(room);
        let start = self.ends[SLOT_COUNT as usize] as usize;
        self.put_heap(&mut room[start..self.length as usize]);
    }

    // Writes the table, for which the room has space. Room past Length keeps its bytes.
    pub(crate) fn put_table(&self, room: &mut [u8])
        requires { self.now.length ≤ length room.old }
        ensures { room.new ≡ table_of (content_given self.now.entries.range.now self.now.entries.strings.now)
            ++ drop (length_built (content_given self.now.entries.range.now self.now.entries.strings.now)) room.old }
    {
        self.put_bare(room);
        put_checksum(room, self.length as usize);
    }
}

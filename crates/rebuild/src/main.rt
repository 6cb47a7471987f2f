// Rebuilds a table: reads one that some firmware wrote, up to 16,384 bytes of standard input, and writes the table that a build
// makes of its record, as short as can be built, to standard output. A table that is refused is answered on standard error, and
// no table is written.
#![tactic(auto)]

use bench_io::console::{Console, Stream};
use bench_io::{LONGEST_TABLE, write_refusal};
use ibft_build_rules::LARGEST_LENGTH;
use ibft_rebuild::rebuild::rebuild;
use octets::read::part;

// Rebuilds the table and writes the new one. (None has more bytes than the room, so want of room, 21, is not met here.)
fn write_rebuilt(console: &Console, table: &[u8]) -> std::io::Result<()> {
    let mut room = [0u8; LARGEST_LENGTH as usize];
    let built = rebuild(table, &mut room);
    let refusal = built.refusal;
    if refusal.number != 0 {
        return write_refusal(&mut std::io::writer(&Stream::Errors), refusal);
    }
    console.write_all(part(&room, 0, built.length as usize))
}

// One byte more than is looked at is read, which tells a longer input. It is not cut, as `show` does: a table that goes on
// behind the cut would be refused for a Length that is right.
fn run(console: &Console) -> std::io::Result<()> {
    let mut input = [0u8; LONGEST_TABLE + 1];
    let n = io::read_full(0, &mut input);
    if LONGEST_TABLE < n {
        return eprintln!(console; "rebuild: the input has more than {LONGEST_TABLE} bytes");
    }
    write_rebuilt(console, part(&input, 0, n))
}

fn main() {
    // (The console gives no error.)
    let _ = run(&Console);
}

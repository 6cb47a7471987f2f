// The bench program: reads a table, up to 16,384 bytes of standard input, and prints what it says where the check of its family
// accepts it, or the one refusal that applies. Numbers are decimal; a MAC address is written as usual. What has the signature
// of no family is checked as an iBFT.
#![tactic(auto)]

use abft::reading::read_abft;
use bench_io::console::Console;
use bench_io::{LONGEST_TABLE, write_refusal};
use ibft_layout::control::Control;
use ibft_layout::initiator::Initiator;
use ibft_layout::layout::{ENTRY_COUNT, SLOT_COUNT};
use ibft_layout::nic::Nic;
use ibft_readings::entry::read_entry;
use ibft_readings::header::read_header;
use ibft_readings::login::{LoginOrder, login_order};
use ibft_readings::structure::read_structure;
use ibft_table::check::check;
use notation::mac::put_mac;
use octets::read::{part, u32_at};
use sbft::layout::{Part, absent, offset_of, part_of};
use scan::Family;
use std::fmt;
use table_header::header::length_of;

// A structure's name: its kind, and the Index of a NIC or a target.
#[derive(Clone, Copy)]
struct Name {
    id: u8,
    index: u8,
}

impl fmt::Display for Name {
    fn fmt<W: fmt::Write>(&self, f: &mut fmt::Formatter<W>) -> fmt::Result {
        if self.id == Initiator::ID {
            return write!(f, "initiator");
        }
        if self.id == Nic::ID {
            return write!(f, "nic{}", self.index);
        }
        write!(f, "target{}", self.index)
    }
}

// The line of each structure that is present, with its start and flags.
fn show_structures(rt: &impl Print, t: &[u8]) -> std::io::Result<()> {
    for slot in 0..SLOT_COUNT {
        let structure = read_structure(t, slot);
        if structure.refusal.number == 0 {
            let name = Name {
                id: structure.id,
                index: structure.index,
            };
            println!(rt; "{name} {} {}", structure.start, structure.flags)?;
        }
    }
    Ok(())
}

// The line of each entry that is present, with its offset and length.
fn show_entries(rt: &impl Print, t: &[u8]) -> std::io::Result<()> {
    for n in 0..ENTRY_COUNT {
        let entry = read_entry(t, n);
        if entry.refusal.number == 0 {
            println!(rt; "entry {n} {} {}", entry.offset, entry.length)?;
        }
    }
    Ok(())
}

// The Indexes of the targets to log in to, in their order.
fn show_order(rt: &impl Print, order: LoginOrder) -> std::io::Result<()> {
    let places = order.places;
    print!(rt; "order")?;
    if order.used == 0 {
        print!(rt; " none")?;
    }
    for index in part(&places, 0, order.used as usize) {
        print!(rt; " {index}")?;
    }
    println!(rt)
}

fn show_mode(rt: &impl Print, t: &[u8]) -> std::io::Result<()> {
    let reading = read_header(t);
    let mode = if reading.header.flags & Control::SINGLE_LOGIN != 0 {
        "single"
    } else {
        "multi"
    };
    println!(rt; "control {mode}")
}

fn show_ibft(rt: &impl Print, t: &[u8]) -> std::io::Result<()> {
    if let Err(refusal) = check(t) {
        return write_refusal(&mut std::io::writer(rt), refusal);
    }
    println!(rt; "table {}", length_of(t))?;
    show_mode(rt, t)?;
    show_structures(rt, t)?;
    show_entries(rt, t)?;
    show_order(rt, login_order(t))
}

// ---- the aBFT

fn show_abft(rt: &impl Print, t: &[u8]) -> std::io::Result<()> {
    let reading = read_abft(t);
    let refusal = reading.refusal;
    if refusal.number != 0 {
        return write_refusal(&mut std::io::writer(rt), refusal);
    }
    let fields = reading.fields;
    let mac = fields.mac;
    println!(rt;
        "abft {}\nshelf {}\nslot {}",
        length_of(t),
        fields.shelf,
        fields.slot
    )?;
    print!(rt; "mac ")?;
    let mut room = [0u8; 17];
    let end = put_mac(&mut room, 0, &mac);
    rt.write_all(part(&room, 0, end))?;
    println!(rt)
}

// ---- the sBFT

// A part's line: where it starts and how many bytes it has.
fn show_part(rt: &impl Print, name: &str, t: &[u8], k: u8) -> std::io::Result<()> {
    if absent(t, k) {
        return println!(rt; "{name} none");
    }
    println!(rt; "{name} {} {}", offset_of(t, k), part_of(k).size)
}

fn show_sbft(rt: &impl Print, t: &[u8]) -> std::io::Result<()> {
    if let Err(refusal) = sbft::check::check(t) {
        return write_refusal(&mut std::io::writer(rt), refusal);
    }
    println!(rt; "sbft {}", length_of(t))?;
    show_part(rt, "scsi", t, Part::SCSI)?;
    show_part(rt, "srp", t, Part::SRP)?;
    show_part(rt, "ib", t, Part::IB)
}

// ---- the family, by the signature

fn show(rt: &impl Print, t: &[u8]) -> std::io::Result<()> {
    let signature = u32_at(t, 0);
    if signature == Family::ABFT.signature {
        return show_abft(rt, t);
    }
    if signature == Family::SBFT.signature {
        return show_sbft(rt, t);
    }
    show_ibft(rt, t)
}

fn main() {
    let mut input = [0u8; LONGEST_TABLE];
    let n = io::read_full(0, &mut input);
    // (The console gives no error.)
    let _ = show(&Console, part(&input, 0, n));
}

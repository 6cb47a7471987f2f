// Tells what a table holds: reads a table, up to 16,384 bytes of standard input, and writes its record as text
// (docs/RECORD-FORMAT.md), or the one refusal that applies. `tell hide-secrets` tells no secret: a comment stands in its place.
// The first four bytes say the family; what has no family's signature is checked as an iBFT.
#![tactic(auto)]

use bench_io::console::Console;
use bench_io::{LONGEST_TABLE, argument, hides, write_refusal};
use family_text::fields::{ABFT, SBFT};
use octets::read::{part, u32_at};
use record_text::tell::tell;
use scan::Family;
use std::env::Env;

// (No text is longer than the room.)
fn tell_ibft(rt: &impl Print, t: &[u8], hide: bool) -> std::io::Result<()> {
    if let Err(refusal) = ibft_table::check::check(t) {
        return write_refusal(&mut std::io::writer(rt), refusal);
    }
    let mut room = [0u8; 65536];
    let end = tell(&mut room, t, hide);
    rt.write_all(part(&room, 0, end))
}

// The text of an aBFT or an sBFT. (The longest has some 500 bytes.)
fn tell_family(rt: &impl Print, t: &[u8], family: u8) -> std::io::Result<()> {
    let mut room = [0u8; 1024];
    let end = family_text::tell::tell(&mut room, family, t);
    rt.write_all(part(&room, 0, end))
}

fn tell_abft(rt: &impl Print, t: &[u8]) -> std::io::Result<()> {
    if let Err(refusal) = abft::check::check(t) {
        return write_refusal(&mut std::io::writer(rt), refusal);
    }
    tell_family(rt, t, ABFT)
}

fn tell_sbft(rt: &impl Print, t: &[u8]) -> std::io::Result<()> {
    if let Err(refusal) = sbft::check::check(t) {
        return write_refusal(&mut std::io::writer(rt), refusal);
    }
    tell_family(rt, t, SBFT)
}

fn tell_table(rt: &impl Print, t: &[u8], hide: bool) -> std::io::Result<()> {
    let signature = u32_at(t, 0);
    if signature == Family::ABFT.signature {
        return tell_abft(rt, t);
    }
    if signature == Family::SBFT.signature {
        return tell_sbft(rt, t);
    }
    tell_ibft(rt, t, hide)
}

// With a word that it does not know it tells nothing.
fn run(rt: &impl Env, console: &Console) -> std::io::Result<()> {
    let mut word = [0u8; 32];
    let n = argument(rt, 1, &mut word);
    let Some(hide) = hides(part(&word, 0, n)) else {
        return eprintln!(console; "tell: the one word that may follow is hide-secrets");
    };
    let mut input = [0u8; LONGEST_TABLE];
    let n = io::read_full(0, &mut input);
    tell_table(console, part(&input, 0, n), hide)
}

fn main(rt: HostRuntime) {
    // (The console gives no error.)
    let _ = run(&rt, &Console);
}

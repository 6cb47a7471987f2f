// What the bench programs share: the program's arguments, where they write, and a refusal as they print it. No public call here
// has a `requires`.
#![tactic(auto)]

ghost use Rattle.std.specs.Prelude.{◌≡◌, OnOk};
ghost use Rattle.std.specs.Io.KnownBytes.{Appends};
ghost use Rattle.io.specs.Counts.{IsPrefixLen};
ghost use Rattle.refusal_text.specs.RefusalText.{refusal_text};
ghost use Rattle.bench_io.specs.Words.{hides};

pub mod console;

use octets::read::part;
use refusal_text::{LINE_SIZE, put_refusal};
use std::env::Env;
use std::io::Write;
use table_header::verdict::Refusal;
use text::split::same;

// As much of a table as a program looks at. (The longest table that a build makes has 13,710 bytes.)
pub const LONGEST_TABLE: usize = 16384;

// Puts the program's argument k at the start of buf and answers its length, or 0 where it is missing or longer than buf. One
// that is too long leaves its first bytes in buf.
pub fn argument(rt: &impl Env, k: usize, buf: &mut [u8]) -> usize
    ensures { IsPrefixLen result buf.new }
{
    rt.arg(k, buf).unwrap_or(0)
}

// Does the word that follows a program's name hide secrets? `hide-secrets` does, and no word does not; any other has no answer,
// since it may have been meant to hide them.
pub fn hides(word: &[u8]) -> Option<bool>
    ensures { result ≡ hides word.now }
{
    if word.len() == 0 {
        return Some(false);
    }
    if same(word, b"hide-secrets") {
        return Some(true);
    }
    None
}

// Writes the line of a refusal.
pub fn write_refusal<W: Write>(to: &mut W, refusal: Refusal) -> std::io::Result<()>
    ensures { OnOk result (Appends (W.contents to.old) (W.contents to.new) (refusal_text refusal)) }
{
    let mut room = [0u8; LINE_SIZE];
    let end = put_refusal(&mut room, 0, refusal);
    to.write_all(part(&room, 0, end))
}

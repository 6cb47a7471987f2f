// The family of a line and of a text, and a line of another family.
ghost use Rattle.std.specs.Prelude.{◌≡◌};
ghost use Rattle.text.specs.Split.{pieces};
ghost use Rattle.family_text.specs.Family.{says_nothing, begins, is_ibft, family_named, line_family, text_family, stray_from, stray_in, stray_read};

use crate::fields::{ABFT, IBFT, NONE, SBFT};
use octets::read::{byte_at, part};
use text::split::{field_text, same, trimmed};

// A line, counted from 1, that is of another family than its text, and which.
#[derive(Clone, Copy)]
pub struct Stray {
    pub line: usize,
    pub family: u8,
}

// Does a line without the blanks at its ends say nothing?
#[tactic(auto, unfolding(crate::specs::Family::says_nothing))]
pub(crate) fn says_nothing(line: &[u8]) -> bool
    ensures { result ≡ says_nothing line.now }
{
    (line.len() == 0) | (byte_at(line, 0) == b'#')
}

// Does the name begin with these bytes?
fn begins(front: &[u8], name: &[u8]) -> bool
    ensures { result ≡ begins front.now name.now }
{
    same(part(name, 0, front.len()), front)
}

// Is it the name of a field that only an iBFT has?
#[tactic(auto, unfolding(crate::specs::Family::is_ibft, octets::specs::Counting::tabulate))]
fn is_ibft(name: &[u8]) -> bool
    ensures { result ≡ is_ibft name.now }
{
    begins(b"control", name)
        || begins(b"initiator.", name)
        || begins(b"nic", name)
        || begins(b"target", name)
}

// The family of a field by its name.
#[tactic(auto, unfolding(crate::specs::Family::family_named, octets::specs::Counting::tabulate))]
fn family_named(name: &[u8]) -> u8
    ensures { result ≡ family_named name.now }
{
    if begins(b"abft.", name) {
        return ABFT;
    }
    if begins(b"sbft.", name) {
        return SBFT;
    }
    if is_ibft(name) {
        return IBFT;
    }
    NONE
}

// The family of a line.
fn line_family(line: &[u8]) -> u8
    ensures { result ≡ line_family line.now }
{
    let said = trimmed(line);
    if says_nothing(said) {
        return NONE;
    }
    family_named(field_text(said))
}

// The family of a text: that of the first line that has one; the iBFT where none has.
pub fn family_of(text: &[u8]) -> u8
    ensures { result ≡ text_family text.now }
{
    for line in text.split(|b| *b == b'\n') {
        let family = line_family(line);
        if family != NONE {
            return family;
        }
    }
    IBFT
}

// The first line that has a family and not this one. (There is at most one line more than there are bytes.)
fn stray_from(family: u8, text: &[u8]) -> Option<Stray>
    ensures { result ≡ stray_read (stray_from family 1 (pieces 10 text.now)) }
{
    let mut line: usize = 1;
    for said in text.split(|b| *b == b'\n') {
        let found = line_family(said);
        if (found != NONE) & (found != family) {
            return Some(Stray {
                line,
                family: found,
            });
        }
        line += 1;
    }
    None
}

// The first line of a text that has a family and not the text's.
pub fn stray_line(text: &[u8]) -> Option<Stray>
    ensures { result ≡ stray_read (stray_in text.now) }
{
    stray_from(family_of(text), text)
}

// The layout of a table as data: the kinds of structure, the slots, the entries.
ghost use Rattle.std.specs.Prelude.{◌≡◌, false, ◌<◌, get_or};
ghost use Rattle.ibft_layout.specs.Layout.{nic_slot, target_slot, named_entries, kind_of, kind_field, index_of, target, owner_of, string_of};
ghost use Rattle.ibft_layout.specs.Layout.{string, may_share, first_entry};
ghost use Rattle.ibft_layout.specs.Shapes.{shape_of, field_shape, string_shape};

use crate::initiator::Initiator;
use crate::nic::Nic;
use crate::shape::{FieldShape, Shape, StringShape};
use crate::target::Target;

// A slot for each structure that a table can have: the five named ones in the order of their Control words (initiator, NIC 0,
// Target 0, NIC 1, Target 1), then six for extra NICs and six for extra targets. (What is known of a number is a `match`, which
// LLVM makes a table; a constant array would be laid on the stack at each call.)
pub const SLOT_COUNT: u8 = 17;

pub const NAMED_COUNT: u8 = 5;

// The most extras of a kind; the first slot of an extra NIC and of an extra target.
pub const EXTRA_MOST: u8 = 6;

pub const EXTRA_NICS: u8 = 5;

pub const EXTRA_TARGETS: u8 = 11;

// The kind of slot k's structure; past the last slot, slot 0's. (A row for each number, here and for the entries of the named
// slots: with ranges in these three tables a check of a common table takes a fifth longer.)
#[tactic(auto, unfolding(crate::specs::Layout::kind_of))]
pub fn kind_of(k: u8) -> Shape
    ensures { result ≡ shape_of (kind_of k) }
{
    match k {
        1 => Nic::SHAPE,
        2 => Target::SHAPE,
        3 => Nic::SHAPE,
        4 => Target::SHAPE,
        5 => Nic::SHAPE,
        6 => Nic::SHAPE,
        7 => Nic::SHAPE,
        8 => Nic::SHAPE,
        9 => Nic::SHAPE,
        10 => Nic::SHAPE,
        11 => Target::SHAPE,
        12 => Target::SHAPE,
        13 => Target::SHAPE,
        14 => Target::SHAPE,
        15 => Target::SHAPE,
        16 => Target::SHAPE,
        _ => Initiator::SHAPE,
    }
}

// The most structures of a kind: two named ones and the extras.
const MOST_OF_A_KIND: u8 = 2 + EXTRA_MOST;

// The slot of NIC n, the n-th by Index: the named ones, then the extras; past the last, no slot.
#[tactic(auto, unfolding(crate::specs::Layout::nic_slot))]
pub fn nic_slot(n: u8) -> u8
    ensures { result ≡ nic_slot n }
{
    match n {
        0 => 1,
        1 => 3,
        2..MOST_OF_A_KIND => EXTRA_NICS + (n - 2),
        _ => SLOT_COUNT,
    }
}

// The slot of Target n, the n-th by Index: the named ones, then the extras; past the last, no slot.
#[tactic(auto, unfolding(crate::specs::Layout::target_slot))]
pub fn target_slot(n: u8) -> u8
    ensures { result ≡ target_slot n }
{
    match n {
        0 => 2,
        1 => 4,
        2..MOST_OF_A_KIND => EXTRA_TARGETS + (n - 2),
        _ => SLOT_COUNT,
    }
}

// The Index of named slot k's structure, and the least that an extra may have.
pub fn index_of(k: u8) -> u8
    ensures { result ≡ index_of k }
{
    match k {
        0..=2 => 0,
        3..=4 => 1,
        _ => 0,
    }
}

pub const LEAST_INDEX: u8 = 2;

// Field n of slot k's structure: its flags, then those behind them, then the two words of each string; past the last, its
// flags.
pub fn field_of(k: u8, n: u8) -> FieldShape
    ensures { result ≡ field_shape (kind_field (kind_of k) n) }
{
    let id = kind_of(k).id;
    if id == Nic::ID {
        return Nic::field(n);
    }
    if id == Target::ID {
        return Target::field(n);
    }
    Initiator::field(n)
}

// Entries are numbered slot by slot, in the order of the strings in the structure: 13 of the named slots, one for each extra
// NIC, five for each extra target, the first of these TARGET_ENTRIES.
pub const ENTRY_COUNT: u8 = 49;

pub const NAMED_ENTRIES: u8 = 13;

pub const TARGET_ENTRIES: u8 = NAMED_ENTRIES + EXTRA_MOST;

// The slot of an entry of the named slots.
fn named_owner(n: u16) -> u8
    requires { n < named_entries }
    ensures { result ≡ owner_of n }
{
    match n {
        1 => 1,
        2 => 2,
        3 => 2,
        4 => 2,
        5 => 2,
        6 => 2,
        7 => 3,
        8 => 4,
        9 => 4,
        10 => 4,
        11 => 4,
        12 => 4,
        _ => 0,
    }
}

// The slot that entry n is a string of; past the last entry, no slot. (The entry that a caller's number stands for may pass 8
// bits.)
pub fn owner_of(n: u16) -> u8
    ensures { result ≡ owner_of n }
{
    if n < NAMED_ENTRIES as u16 {
        return named_owner(n);
    }
    if n < TARGET_ENTRIES as u16 {
        return (n - NAMED_ENTRIES as u16) as u8 + EXTRA_NICS;
    }
    if n < ENTRY_COUNT as u16 {
        return ((n - TARGET_ENTRIES as u16) / Target::STRINGS) as u8 + EXTRA_TARGETS;
    }
    SLOT_COUNT
}

// The i-th string of a target.
fn target_string(i: u16) -> StringShape
    ensures { result ≡ string_shape (get_or target.string_fields i (string 34 223 false)) }
{
    match i {
        1 => Target::CHAP_NAME,
        2 => Target::CHAP_SECRET,
        3 => Target::REVERSE_NAME,
        4 => Target::REVERSE_SECRET,
        _ => Target::NAME,
    }
}

// The string of an entry of the named slots.
fn named_string(n: u16) -> StringShape
    requires { n < named_entries }
    ensures { result ≡ string_shape (string_of n) }
{
    match n {
        1 => Nic::HOST,
        2 => Target::NAME,
        3 => Target::CHAP_NAME,
        4 => Target::CHAP_SECRET,
        5 => Target::REVERSE_NAME,
        6 => Target::REVERSE_SECRET,
        7 => Nic::HOST,
        8 => Target::NAME,
        9 => Target::CHAP_NAME,
        10 => Target::CHAP_SECRET,
        11 => Target::REVERSE_NAME,
        12 => Target::REVERSE_SECRET,
        _ => Initiator::NAME,
    }
}

// Which string of that slot's structure it is; past the last entry, the initiator's name.
pub fn string_of(n: u16) -> StringShape
    ensures { result ≡ string_shape (string_of n) }
{
    if n < NAMED_ENTRIES as u16 {
        return named_string(n);
    }
    if n < TARGET_ENTRIES as u16 {
        return Nic::HOST;
    }
    if n < ENTRY_COUNT as u16 {
        return target_string((n - TARGET_ENTRIES as u16) % Target::STRINGS);
    }
    Initiator::NAME
}

// The number of slot k's first entry. (Past the last slot each counts as an initiator, which has one string.)
#[tactic(auto, unfolding(crate::specs::Layout::first_entry, crate::specs::Layout::kind_of, octets::specs::Counting::sum_to,))]
pub fn first_entry(k: u8) -> u16
    ensures { result ≡ first_entry k }
{
    if SLOT_COUNT <= k {
        return ENTRY_COUNT as u16 + (k - SLOT_COUNT) as u16;
    }
    if EXTRA_TARGETS <= k {
        return TARGET_ENTRIES as u16 + Target::STRINGS * (k - EXTRA_TARGETS) as u16;
    }
    if EXTRA_NICS <= k {
        return NAMED_ENTRIES as u16 + (k - EXTRA_NICS) as u16;
    }
    match k {
        1 => 1,
        2 => 2,
        3 => 7,
        4 => 8,
        _ => 0,
    }
}

// May entry n, built, have bytes in common with another? A secret may not: who wipes it wipes nothing else.
pub fn may_share(n: u16) -> bool
    ensures { result ≡ may_share n }
{
    !string_of(n).secret
}

// Where the CHAP type stands in a structure that has it; the CHAP types are 0 to 2.
pub const CHAP_AT: u8 = Target::CHAP_TYPE.at as u8;

pub const CHAP_LAST: u8 = 2;

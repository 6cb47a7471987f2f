// A walk along all that two tables may differ in, in the order named: what differs is counted, and the difference asked for is
// kept. What is walked along of the structures has three aspects, one behind the other: presence, flags and fields, strings.
ghost use Rattle.std.specs.Prelude.{◌≡◌, [], ◌∷◌, true, cond, ◌&&◌, suc, ◌+◌, ◌≤◌, ◌<◌, length, MatchOption};
ghost use Rattle.octets.specs.Octets.{part, differs};
ghost use Rattle.ibft_layout.specs.Layout.{kind_of, kind_field, string_of, first_entry, slot_count, extra_most};
ghost use Rattle.ibft_table.specs.Table.{holds_entry, offset_of, size_of};
ghost use Rattle.ibft_compare.specs.Pairs.{kind_in, pair_with, extra_pairs, pairs_in};
ghost use Rattle.ibft_compare.specs.Points.{oem_id, oem_table_id, control_flags, presence, field_at, string_at, each, points};
ghost use Rattle.ibft_compare.specs.Differences.{stretch, nothing, unequal};
ghost use Rattle.ibft_compare.specs.Walk.{only_one, indices_of, Paired, ExtraGroup, NoneBetween, NoneAbove, named_pairs, points_in, count_in, point_in, unmet, counted, walked};

use crate::difference::{Difference, Stretch, no_stretch};
use crate::pair::Pair;
use crate::table::{Table, indices_of};
use crate::unequal::{only_one, unequal};
use ibft_layout::control::Control;
use ibft_layout::layout::{
    EXTRA_MOST, EXTRA_NICS, EXTRA_TARGETS, LEAST_INDEX, NAMED_COUNT, field_of, first_entry,
    kind_of, string_of,
};
use ibft_layout::nic::Nic;
use ibft_layout::shape::FieldShape;
use ibft_layout::target::Target;
use ibft_table::seats::starts_of;
use octets::read::{byte_at, part};
use table_header::header::{OEM_ID_AT, OEM_TABLE_ID_AT};

// What is walked along of a pair of structures.
#[derive(Clone, Copy)]
pub enum Aspect {
    Presence,
    Fields,
    Strings,
}

// What the walk has met so far: how many differences, and the one asked for, counted from 0, once it is met.
// (No Option for that one: `Nothing` and empty stretches are what `DifferenceReading` promises where there is none.)
#[derive(Clone, Copy)]
pub struct Met {
    pub wanted: u16,
    pub count: u16,
    pub difference: Difference,
    pub left: Stretch,
    pub right: Stretch,
}

impl Met {
    // Nothing is met yet.
    pub(crate) fn none(wanted: u16) -> Met
        ensures { result ≡ unmet wanted }
    {
        Met {
            wanted,
            count: 0,
            difference: Difference::Nothing,
            left: no_stretch(),
            right: no_stretch(),
        }
    }

    // A point more, at which the tables differ or do not.
    fn then(self, differs: bool, difference: Difference, left: Stretch, right: Stretch) -> Met
        requires { self.count < 65535 }
        ensures { (result ≡ cond «differs» (counted self difference left right) self) × (result.count ≤ self.count + 1) }
    {
        if !differs {
            return self;
        }
        let count = self.count + 1;
        if self.count != self.wanted {
            return Met { count, ..self };
        }
        Met {
            count,
            difference,
            left,
            right,
            ..self
        }
    }
}

// How many bytes the OEM fields have.
const OEM_ID_SIZE: u16 = 6;

const OEM_TABLE_ID_SIZE: u16 = 8;

// A structure of this Length that starts there; nothing where it is absent.
fn structure_stretch(start: u16, length: u16) -> Stretch
    ensures { result ≡ cond (differs start 0) (stretch start «length») nothing }
{
    if start == 0 {
        return no_stretch();
    }
    Stretch {
        start: start as u32,
        length,
    }
}

// A field of a structure that starts there.
fn field_stretch(start: u16, f: FieldShape) -> Stretch
    ensures { result ≡ stretch (start + f.at) f.width }
{
    Stretch {
        start: start as u32 + f.at as u32,
        length: f.width as u16,
    }
}

// How many fields a structure of slot k's kind has, its flags included.
const INITIATOR_FIELDS: u8 = 5;

const NIC_FIELDS: u8 = 11;

const TARGET_FIELDS: u8 = 6;

fn field_count(k: u8) -> u8
    ensures { (result ≡ suc (length (kind_of k).fields)) × (result ≤ 11) }
{
    let id = kind_of(k).id;
    if id == Nic::ID {
        return NIC_FIELDS;
    }
    if id == Target::ID {
        return TARGET_FIELDS;
    }
    INITIATOR_FIELDS
}

// How many strings a structure of slot k's kind has.
const TARGET_STRINGS: u8 = 5;

fn string_count(k: u8) -> u8
    ensures { (result ≡ length (kind_of k).string_fields) × (result ≤ 5) }
{
    if kind_of(k).id == Target::ID {
        return TARGET_STRINGS;
    }
    1
}

// How many points an aspect of a pair has.
fn point_count(aspect: Aspect, pair: Pair) -> u8
    ensures { (result ≡ count_in aspect pair) × (result ≤ 11) }
{
    match aspect {
        Aspect::Presence => 1,
        Aspect::Fields => field_count(pair.group),
        Aspect::Strings => string_count(pair.group),
    }
}

// The least byte above `after` of the two strings.
fn least_above(l: &[u8], r: &[u8], after: u8) -> Option<u8>
    ensures { MatchOption result (NoneAbove l.now after 256 × NoneAbove r.now after 256)
        (λ least. (after < least) × NoneAbove l.now after least × NoneAbove r.now after least) }
{
    l.iter()
        .chain(r.iter())
        .copied()
        .filter(|byte| *byte > after)
        .min()
}

// The two tables.
#[derive(Clone, Copy)]
struct Tables<'a, 'b> {
    left: Table<'a>,
    right: Table<'b>,
}

impl Tables<'_, '_> {
    // ---- the header and Control

    // Of a field that every table has at this place: whether its bytes differ.
    fn bytes_differ(&self, at: Stretch) -> bool
        ensures { result ≡ unequal (part self.now.left.bytes.now «at».start «at».length)
            (part self.now.right.bytes.now «at».start «at».length) }
    {
        let start = at.start as usize;
        let length = at.length as usize;
        unequal(
            part(self.left.bytes, start, length),
            part(self.right.bytes, start, length),
        )
    }

    // Walks along the OEM fields and Control's flags.
    fn meet_header(&self, met: Met) -> Met
        requires { met.count ≡ 0 }
        ensures { (result ≡ walked self.now.left.bytes.now self.now.right.bytes.now met
            (oem_id ∷ oem_table_id ∷ control_flags ∷ [])) × (result.count ≤ 3) }
    {
        let id = Stretch {
            start: OEM_ID_AT as u32,
            length: OEM_ID_SIZE,
        };
        let table_id = Stretch {
            start: OEM_TABLE_ID_AT as u32,
            length: OEM_TABLE_ID_SIZE,
        };
        let flags = Stretch {
            start: Control::FLAGS_AT as u32,
            length: 1,
        };
        let met = met.then(self.bytes_differ(id), Difference::OemId, id, id);
        let met = met.then(
            self.bytes_differ(table_id),
            Difference::OemTableId,
            table_id,
            table_id,
        );
        let flags_at = Control::FLAGS_AT as usize;
        met.then(
            byte_at(self.left.bytes, flags_at) != byte_at(self.right.bytes, flags_at),
            Difference::ControlFlags,
            flags,
            flags,
        )
    }

    // ---- a pair of structures

    // Walks along the presence of a pair.
    fn meet_presence(&self, pair: Pair, met: Met) -> Met
        requires { met.count < 65535 }
        ensures { result ≡ walked self.now.left.bytes.now self.now.right.bytes.now met (presence pair ∷ []) }
    {
        let kind = kind_of(pair.group);
        let l = self.left.start(pair.left);
        let r = self.right.start(pair.right);
        met.then(
            only_one(l != 0, r != 0),
            Difference::Presence(kind.id, pair.index),
            structure_stretch(l, kind.length),
            structure_stretch(r, kind.length),
        )
    }

    // Does a field differ, of structures that start at l and at r? Only where there are both.
    fn field_differs(&self, l: u16, r: u16, f: FieldShape) -> bool
        ensures { result ≡ differs l 0 && (differs r 0 && unequal (part self.now.left.bytes.now (l + f.at) f.width)
            (part self.now.right.bytes.now (r + f.at) f.width)) }
    {
        if l == 0 {
            return false;
        }
        if r == 0 {
            return false;
        }
        let at = f.at as usize;
        let width = f.width as usize;
        unequal(
            part(self.left.bytes, l as usize + at, width),
            part(self.right.bytes, r as usize + at, width),
        )
    }

    // Walks along field n of a pair.
    fn meet_field(&self, pair: Pair, n: u8, met: Met) -> Met
        requires { Paired pair × (n ≤ length (kind_in pair).fields) × (met.count < 65535) }
        ensures { result ≡ walked self.now.left.bytes.now self.now.right.bytes.now met
            (field_at pair (kind_field (kind_in pair) n) ∷ []) }
    {
        let id = kind_of(pair.group).id;
        let f = field_of(pair.group, n);
        let l = self.left.start(pair.left);
        let r = self.right.start(pair.right);
        let differs = self.field_differs(l, r, f);
        met.then(
            differs,
            Difference::Field(id, pair.index, f.at),
            field_stretch(l, f),
            field_stretch(r, f),
        )
    }

    // Does entry n of the left table differ from entry m of the right one?
    fn entry_differs(&self, n: u16, m: u16) -> bool
        ensures { result ≡ cond (only_one (holds_entry self.now.left.bytes.now n) (holds_entry self.now.right.bytes.now m)) true
            (holds_entry self.now.left.bytes.now n
            && unequal (part self.now.left.bytes.now (offset_of self.now.left.bytes.now n) (size_of self.now.left.bytes.now n))
            (part self.now.right.bytes.now (offset_of self.now.right.bytes.now m) (size_of self.now.right.bytes.now m))) }
    {
        let l = self.left.holds(n);
        if only_one(l, self.right.holds(m)) {
            return true;
        }
        if !l {
            return false;
        }
        unequal(self.left.entry(n), self.right.entry(m))
    }

    // Walks along string j of a pair. The strings of a structure that only one table has are not looked at.
    fn meet_string(&self, pair: Pair, j: u8, met: Met) -> Met
        requires { Paired pair × (j < length (kind_in pair).string_fields) × (met.count < 65535) }
        ensures { result ≡ walked self.now.left.bytes.now self.now.right.bytes.now met
            (string_at pair j (string_of (first_entry pair.group + j)) ∷ []) }
    {
        let l = self.left.start(pair.left);
        let r = self.right.start(pair.right);
        if only_one(l != 0, r != 0) {
            return met;
        }
        let n = first_entry(pair.left) + j as u16;
        let m = first_entry(pair.right) + j as u16;
        let id = kind_of(pair.group).id;
        let string = string_of(first_entry(pair.group) + j as u16);
        met.then(
            self.entry_differs(n, m),
            Difference::Entry(id, pair.index, string.at),
            self.left.entry_stretch(n),
            self.right.entry_stretch(m),
        )
    }

    // Walks along point n of an aspect of a pair.
    fn meet_point(&self, aspect: Aspect, pair: Pair, n: u8, met: Met) -> Met
        requires { Paired pair × (n < count_in aspect pair) × (met.count < 65535) }
        ensures { result ≡ walked self.now.left.bytes.now self.now.right.bytes.now met (point_in aspect pair n ∷ []) }
    {
        match aspect {
            Aspect::Presence => self.meet_presence(pair, met),
            Aspect::Fields => self.meet_field(pair, n, met),
            Aspect::Strings => self.meet_string(pair, n, met),
        }
    }

    // ---- all pairs. (How far `count` can get: an aspect of a pair has 11 points at most, the fields of a NIC. There are five
    // named slots and, in each of two groups, 254 Indexes: so 55, 2,794 and in all 5,643 points of an aspect.)

    // Walks along one aspect of a pair.
    fn meet_pair(&self, aspect: Aspect, pair: Pair, met: Met) -> Met
        requires { Paired pair × (met.count ≤ 65000) }
        ensures { (result ≡ walked self.now.left.bytes.now self.now.right.bytes.now met (points_in aspect pair))
            × (result.count ≤ met.count + 11) }
    {
        let mut met = met;
        for n in 0..point_count(aspect, pair) {
            met = self.meet_point(aspect, pair, n, met);
        }
        met
    }

    // Walks along one aspect of the named slots.
    fn meet_named(&self, aspect: Aspect, met: Met) -> Met
        requires { met.count ≤ 60000 }
        ensures { (result ≡ walked self.now.left.bytes.now self.now.right.bytes.now met (each (points_in aspect) named_pairs))
            × (result.count ≤ met.count + 55) }
    {
        let mut met = met;
        for k in 0..NAMED_COUNT {
            met = self.meet_pair(aspect, Pair::named(k), met);
        }
        met
    }

    // Walks along one aspect of the extra of this group and Index, where a table has it.
    fn meet_index(&self, aspect: Aspect, group: u8, index: u8, met: Met) -> Met
        requires { ExtraGroup group × (met.count ≤ 65000) }
        ensures { (result ≡ walked self.now.left.bytes.now self.now.right.bytes.now met
            (each (points_in aspect) (pair_with self.now.left.indices.now self.now.right.indices.now group index)))
            × (result.count ≤ met.count + 11) }
    {
        let pair = Pair {
            group,
            index,
            left: self.left.slot_with(group, index),
            right: self.right.slot_with(group, index),
        };
        if pair.is_none() {
            return met;
        }
        self.meet_pair(aspect, pair, met)
    }

    // The least Index above `after` that an extra of this group has in either table.
    fn next_index(&self, group: u8, after: u8) -> Option<u8>
        requires { group + extra_most ≤ slot_count }
        ensures { MatchOption result
            (NoneBetween self.now.left.indices.now group after 256 × NoneBetween self.now.right.indices.now group after 256)
            (λ next. (after < next) × NoneBetween self.now.left.indices.now group after next
            × NoneBetween self.now.right.indices.now group after next) }
    {
        let first = group as usize;
        least_above(
            part(self.left.indices, first, EXTRA_MOST as usize),
            part(self.right.indices, first, EXTRA_MOST as usize),
            after,
        )
    }

    // Walks along one aspect of the extras of a group, by Index.
    // (A while: it goes from an Index that a table has to the next.)
    fn meet_extras(&self, aspect: Aspect, group: u8, met: Met) -> Met
        requires { ExtraGroup group × (met.count ≤ 60000) }
        ensures { (result ≡ walked self.now.left.bytes.now self.now.right.bytes.now met
            (each (points_in aspect) (extra_pairs self.now.left.indices.now self.now.right.indices.now group)))
            × (result.count ≤ met.count + 2794) }
    {
        let mut met = met;
        let mut after = LEAST_INDEX - 1;
        while let Some(index) = self.next_index(group, after) {
            met = self.meet_index(aspect, group, index, met);
            after = index;
        }
        met
    }

    // Walks along one aspect of all pairs.
    fn meet_pairs(&self, aspect: Aspect, met: Met) -> Met
        requires { met.count ≤ 50000 }
        ensures { (result ≡ walked self.now.left.bytes.now self.now.right.bytes.now met
            (each (points_in aspect) (pairs_in self.now.left.indices.now self.now.right.indices.now)))
            × (result.count ≤ met.count + 5643) }
    {
        let named = self.meet_named(aspect, met);
        let nics = self.meet_extras(aspect, EXTRA_NICS, named);
        self.meet_extras(aspect, EXTRA_TARGETS, nics)
    }

    // Walks along all points.
    fn meet_points(&self, wanted: u16) -> Met
        ensures { result ≡ walked self.now.left.bytes.now self.now.right.bytes.now (unmet wanted)
            (points (pairs_in (indices_of self.now.left.bytes.now) (indices_of self.now.right.bytes.now))) }
    {
        let header = self.meet_header(Met::none(wanted));
        let presence = self.meet_pairs(Aspect::Presence, header);
        let fields = self.meet_pairs(Aspect::Fields, presence);
        self.meet_pairs(Aspect::Strings, fields)
    }
}

// Walks along all points of two tables.
pub(crate) fn meet_all(left: &[u8], right: &[u8], wanted: u16) -> Met
    ensures { result ≡ walked left.now right.now (unmet wanted)
        (points (pairs_in (indices_of left.now) (indices_of right.now))) }
{
    let ls = starts_of(left);
    let rs = starts_of(right);
    let li = indices_of(&ls, left);
    let ri = indices_of(&rs, right);
    let tables = Tables {
        left: Table {
            bytes: left,
            starts: &ls,
            indices: &li,
        },
        right: Table {
            bytes: right,
            starts: &rs,
            indices: &ri,
        },
    };
    tables.meet_points(wanted)
}

// Words: names as lists of words, with one space between, and sets of such words. A word is known by its number in its list.
ghost use Rattle.std.specs.Prelude.{◌≡◌, [], ◌∷◌, cond, ◌+◌, ◌≤◌, ◌<◌, length, eqb};
ghost use Rattle.text.specs.Put.{Puts};
ghost use Rattle.text.specs.Words.{word_number, word_count, word_at, bit, tokens, with_words, no_word, read_word_set, spaced, word_set_text};

use crate::put::{put_char, put_text};
use crate::split::{blanks, is_blank, same, trimmed};

// The number of the first word of the list that is `word`, counted from 0; how many words there are where none is.
pub fn word_number(list: &[u8], word: &[u8]) -> usize
    ensures { (result ≡ word_number list.now word.now) × (result ≤ length list.now + 1) }
{
    list.split(|b| *b == b' ')
        .take_while(|w| !same(w, word))
        .count()
}

// How many words the list has.
pub fn word_count(list: &[u8]) -> usize
    ensures { (result ≡ word_count list.now) × (result ≤ length list.now + 1) }
{
    list.split(|b| *b == b' ').count()
}

// Word n of the list, counted from 0; no bytes past the last.
pub fn word_at(list: &[u8], n: usize) -> &[u8]
    ensures { result.now ≡ word_at list.now n }
{
    list.split(|b| *b == b' ').nth(n).unwrap_or(&list[..0])
}

// Is bit k of v set?
fn has_bit(v: u8, k: usize) -> bool
    requires { k < 8 }
    ensures { result ≡ eqb (bit k v) 1 }
{
    v >> k & 1 == 1
}

// The set v with a word added, which must be one of the list's first eight, and not be in the set yet. (Bit k of a set says
// whether word k is in it.)
fn with_word(list: &[u8], v: u8, word: &[u8]) -> Option<u8>
    ensures { result ≡ with_words list.now v (word.now ∷ []) }
{
    let k = word_number(list, word);
    if word_count(list) <= k {
        return None;
    }
    if 8 <= k {
        return None;
    }
    if has_bit(v, k) {
        return None;
    }
    Some(v + (1 << k))
}

// The set v with the words of s added, one by one. (Where two blanks meet, an empty piece stands between them.)
fn add_words(list: &[u8], s: &[u8], v: u8) -> Option<u8>
    ensures { result ≡ with_words list.now v (tokens s.now) }
{
    let mut set = v;
    for word in s.split(|b| is_blank(*b)) {
        if !word.is_empty() {
            set = with_word(list, set, word)?;
        }
    }
    Some(set)
}

// The set of words of the list that is written in s, with blanks between; `none` is the empty set. No set where s is no such
// text.
pub fn read_word_set(list: &[u8], s: &[u8]) -> Option<u8>
    ensures { result ≡ read_word_set list.now s.now }
{
    if same(trimmed(s), b"none") {
        return Some(0);
    }
    if blanks(s) == s.len() {
        return None;
    }
    add_words(list, s, 0)
}

// Puts a word of a set at `at`: with a space before it, unless it is the first.
fn put_word(room: &mut [u8], at: usize, word: &[u8], first: bool) -> usize
    ensures { Puts room.old room.new at result (spaced first word.now) }
{
    if first {
        return put_text(room, at, word);
    }
    let behind = put_char(room, at, b' ');
    put_text(room, behind, word)
}

// Puts the end of a set's text: `none` where no word stands before it.
fn put_end(room: &mut [u8], at: usize, first: bool) -> usize
    ensures { Puts room.old room.new at result (cond first no_word []) }
{
    if first {
        return put_text(room, at, b"none");
    }
    put_text(room, at, b"")
}

// Puts the set v of words of the list: its words in the list's order, with one space between, or `none`. Bits past the list's
// words are left out.
pub fn put_word_set(room: &mut [u8], at: usize, list: &[u8], v: u8) -> usize
    ensures { Puts room.old room.new at result (word_set_text list.now v) }
{
    let mut behind = at;
    // Its lowest bit is for the next word.
    let mut left = v;
    let mut first = true;
    for word in list.split(|b| *b == b' ') {
        if left % 2 == 1 {
            behind = put_word(room, behind, word, first);
            first = false;
        }
        left /= 2;
    }
    put_end(room, behind, first)
}

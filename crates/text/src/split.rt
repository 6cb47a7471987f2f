// Text taken apart: the blanks at its ends, the field and the value of a line, a byte's place. Parts are shown, not copied.
ghost use Rattle.std.specs.Prelude.{◌≡◌, ◌≤◌, length};
ghost use Rattle.octets.specs.View.{Part};
ghost use Rattle.text.specs.Split.{is_blank, index_of, same, blanks, trim_end, trim, field_size, value_of, value_start};

use octets::read::part;

// The space, the tab or the carriage return? (`|` takes all three tests without a branch.)
pub(crate) fn is_blank(b: u8) -> bool
    ensures { result ≡ is_blank b }
{
    (b == b' ') | (b == b'\t') | (b == b'\r')
}

// The first place of the byte b, or the length where it is not there. (No Option: callers use it as the end of a piece.)
pub fn index_of(s: &[u8], b: u8) -> usize
    ensures { (result ≡ index_of b s.now) × (result ≤ length s.now) }
{
    s.iter().position(|x| *x == b).unwrap_or(s.len())
}

// The same bytes?
pub fn same(a: &[u8], b: &[u8]) -> bool
    ensures { result ≡ same a.now b.now }
{
    a == b
}

// How many blanks stand at the front.
pub(crate) fn blanks(s: &[u8]) -> usize
    ensures { (result ≡ blanks s.now) × (result ≤ length s.now) }
{
    s.iter().position(|b| !is_blank(*b)).unwrap_or(s.len())
}

// How many bytes stand before the first blank: so many has a line's field.
fn field_size(s: &[u8]) -> usize
    ensures { (result ≡ field_size s.now) × (result ≤ length s.now) }
{
    s.iter().position(|b| is_blank(*b)).unwrap_or(s.len())
}

// How many bytes there are without the blanks at the end.
fn trimmed_size(s: &[u8]) -> usize
    ensures { result ≡ length (trim_end s.now) }
{
    match s.iter().rposition(|b| !is_blank(*b)) {
        Some(last) => last + 1,
        None => 0,
    }
}

// The text without the blanks at its ends.
pub fn trimmed(s: &[u8]) -> &[u8]
    ensures { Part s.entry result (blanks s.now) (length (trim s.now)) }
{
    let start = blanks(s);
    let size = trimmed_size(&s[start..]);
    part(s, start, size)
}

// The field of a line: what stands before the first blank.
pub fn field_text(line: &[u8]) -> &[u8]
    ensures { Part line.entry result 0 (field_size line.now) }
{
    part(line, 0, field_size(line))
}

// The value of a line: all that stands behind the field, without the blanks at its ends.
pub fn value_of(line: &[u8]) -> &[u8]
    ensures { Part line.entry result (value_start line.now) (length (value_of line.now)) }
{
    let size = field_size(line);
    trimmed(&line[size..])
}

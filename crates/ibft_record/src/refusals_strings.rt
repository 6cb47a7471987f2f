// What a build refuses of the strings: past the range lent for them (24), too long (17), a zero byte (20), no host name (18),
// entry by entry.
ghost use Rattle.std.specs.Prelude.{◌≡◌, ◌<◌};
ghost use Rattle.octets.specs.Counting.{gather};
ghost use Rattle.ibft_layout.specs.Layout.{entry_count};
ghost use Rattle.table_header.specs.Verdict.{first_of};
ghost use Rattle.ibft_build_rules.specs.Refusals.{has_zero, string_tests};

use crate::record::{entry_given, entry_length, entry_limit, entry_number, entry_start};
use hostname::is_host_name;
use ibft_layout::layout::string_of;
use octets::read::part;
use table_header::verdict::{Verdict, refuse};

// Does a zero byte stand among the bytes? All of them are read: a loop with no early exit is vectorised.
fn has_zero(s: &[u8]) -> bool
    ensures { result ≡ has_zero s.now }
{
    let mut found = false;
    for byte in s {
        found |= *byte == 0;
    }
    found
}

// Entry n, where it is present; else its two words are no part of the record. (Its end may pass 16 bits.)
fn string_verdict(range: &[u8], strings: &[u8], n: u8) -> Verdict
    requires { n < entry_count }
    ensures { result ≡ first_of (string_tests range.now strings.now n) }
{
    if !entry_given(range, n) {
        return Ok(());
    }
    let start = entry_start(range, n) as usize;
    let length = entry_length(range, n) as usize;
    if strings.len() < start + length {
        return refuse(24, entry_number(range, n) as u32);
    }
    let string = string_of(n as u16);
    if (string.longest as usize) < length {
        return refuse(17, entry_number(range, n) as u32);
    }
    let bytes = part(strings, start, length);
    if has_zero(bytes) {
        return refuse(20, entry_number(range, n) as u32);
    }
    if !string.host {
        return Ok(());
    }
    if !is_host_name(bytes) {
        return refuse(18, entry_number(range, n) as u32);
    }
    Ok(())
}

pub(crate) fn strings_verdict(range: &[u8], strings: &[u8]) -> Verdict
    ensures { result ≡ first_of (gather (string_tests range.now strings.now) 0 entry_count) }
{
    let limit = entry_limit(range);
    for n in 0..limit {
        string_verdict(range, strings, n)?;
    }
    Ok(())
}

// Calls of the library that tests/host measures and compares, and that C firmware has no use for. They are no part of
// libbootfw.a. A reading answers with one number, and lays its fields out in the bytes that the caller lends.
#![tactic(auto)]

mod abft_reading;
mod comparing;
mod header;
mod initiator;
mod nic;
mod packed;
mod put;
mod sbft_readings;
mod target;
mod view;

ghost use Rattle.std.specs.Prelude.{◌≡◌};
ghost use Rattle.hostname.specs.Hostname.{is_host_name};
ghost use Rattle.octets.specs.Promises.{ChecksumByte};
ghost use Rattle.string_heap.specs.Tails.{agree, is_tail};

#[unsafe(no_mangle)]
pub extern "C" fn test_host_name(s: &[u8]) -> bool
    ensures { result ≡ is_host_name s.now }
{
    hostname::is_host_name(s)
}

#[unsafe(no_mangle)]
pub extern "C" fn test_checksum(s: &[u8], at: usize) -> u8
    ensures { ChecksumByte s.now at result }
{
    octets::sum::checksum(s, at)
}

#[unsafe(no_mangle)]
pub extern "C" fn test_common_tail(a: &[u8], b: &[u8]) -> usize
    ensures { result ≡ agree a.now b.now }
{
    string_heap::tail::common_tail(a, b)
}

#[unsafe(no_mangle)]
pub extern "C" fn test_is_tail(a: &[u8], b: &[u8]) -> bool
    ensures { result ≡ is_tail a.now b.now }
{
    string_heap::tail::is_tail(a, b)
}

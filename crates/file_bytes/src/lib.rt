// Numbers in files, little-endian, and the mark that a file begins with.
#![tactic(auto)]

ghost use Rattle.std.specs.Prelude.{◌≡◌, ◌+◌, ◌≤◌, length};
ghost use Rattle.file_bytes.specs.Bytes.{u32_at, marked};
ghost use Rattle.file_bytes.specs.working.Reads.{ReadU16};

#[tactic(auto, unfolding(crate::specs::Bytes::u16_at))]
pub fn u16_at(s: &[u8], at: usize) -> u32
    requires { at + 2 ≤ length s.now }
    ensures { ReadU16 s.now at result }
{
    u32::from(u16::from_le_bytes([s[at], s[at + 1]]))
}

#[tactic(auto, unfolding(crate::specs::Bytes::u32_at))]
pub fn u32_at(s: &[u8], at: usize) -> u32
    requires { at + 4 ≤ length s.now }
    ensures { result ≡ u32_at s.now at }
{
    u32::from_le_bytes([s[at], s[at + 1], s[at + 2], s[at + 3]])
}

// Bytes 0 to 2 are a, b and c, and byte 5 is 0.
#[tactic(auto, unfolding(crate::specs::Bytes::marked))]
pub fn marked(a: u8, b: u8, c: u8, s: &[u8]) -> bool
    requires { 6 ≤ length s.now }
    ensures { result ≡ marked a b c s.now }
{
    s[0] == a && s[1] == b && s[2] == c && s[5] == 0
}

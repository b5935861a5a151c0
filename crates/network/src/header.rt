// The header that both files begin with: version, junctions and identity stand at the same bytes.
ghost use Rattle.std.specs.Prelude.{◌≡◌, ◌≤◌, length};
ghost use Rattle.file_bytes.specs.working.Reads.{Read16};
ghost use Rattle.network.specs.NetworkFile.{header_bytes, version_of, junctions_of, roads_of, identity_of};

use file_bytes::{u16_at, u32_at};

pub const HEADER_BYTES: usize = 16;

// The version of a file.
pub fn version_of(file: &[u8]) -> u32
    requires { header_bytes ≤ length file.now }
    ensures { Read16 (version_of file.now) result }
{
    u16_at(file, 3)
}

// How many junctions it speaks of.
pub fn junctions_of(file: &[u8]) -> u32
    requires { header_bytes ≤ length file.now }
    ensures { Read16 (junctions_of file.now) result }
{
    u16_at(file, 6)
}

// How many roads a network has.
pub fn roads_of(net: &[u8]) -> u32
    requires { header_bytes ≤ length net.now }
    ensures { result ≡ roads_of net.now }
{
    u32_at(net, 8)
}

// The identity that a network and its labels share.
pub fn identity_of(file: &[u8]) -> u32
    requires { header_bytes ≤ length file.now }
    ensures { result ≡ identity_of file.now }
{
    u32_at(file, 12)
}

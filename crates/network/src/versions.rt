// Which versions of a file are served, and what a version asks of a network.
ghost use Rattle.std.specs.Prelude.{◌≡◌};
ghost use Rattle.network.specs.Versions.{served, version_one, least_energy};

use paths::energy::Energy;

// The versions that are served: from the first to the last.
#[derive(Clone, Copy)]
pub struct Served {
    pub first: u32,
    pub last: u32,
}

impl Served {
    // Whether a file of this version is served.
    pub fn includes(self, version: u32) -> bool
        ensures { result ≡ served self version }
    {
        self.first <= version && version <= self.last
    }
}

// Version 1 alone.
pub fn version_one() -> Served
    ensures { result ≡ version_one }
{
    Served { first: 1, last: 1 }
}

// The bytes of a road's record.
pub const RECORD_BYTES: usize = 8;

// The least energy of a road.
pub fn least_energy(version: u32) -> Energy
    ensures { result.0 ≡ least_energy version }
{
    Energy(1)
}

// What a version asks of labels, and how it lays their lists.
ghost use Rattle.std.specs.Prelude.{◌≡◌};
ghost use Rattle.forest.specs.LabelVersions.{least_entry_energy};

use paths::energy::Energy;

// The bytes of a list's count, and of an entry.
pub const COUNT_BYTES: usize = 2;

pub const ENTRY_BYTES: usize = 8;

// The order of the numbers: where the first time stands in a list and ends, where the first energy does, and the bytes from one to the next.
pub const FIRST_TIME: usize = 2;

pub const TIME_END: usize = 6;

pub const FIRST_ENERGY: usize = 6;

pub const STRIDE: usize = 8;

// The least energy of an entry.
pub fn least_entry_energy(version: u32) -> Energy
    ensures { result.0 ≡ least_entry_energy version }
{
    Energy(1)
}

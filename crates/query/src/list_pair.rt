// Two stored lists for the same ancestor, in the label bytes of both.
ghost use Rattle.std.specs.Prelude.{◌≡◌};
ghost use Rattle.stored.specs.working.Formed.{ListFits};

use stored::list::StoredList;

// The near list and the far list, each at its byte.
#[derive(Clone, Copy)]
pub struct ListPair<'a> {
    pub labels: &'a [u8],
    pub near: usize,
    pub far: usize,
    ghost near_fits: { ListFits labels.now near },
    ghost far_fits: { ListFits labels.now far },
}

impl<'a> ListPair<'a> {
    pub fn near(self) -> StoredList<'a>
        ensures labels_is { result.labels.now ≡ self.entry.labels.now }
        ensures at_is { result.at ≡ self.entry.near }
    {
        StoredList {
            labels: self.labels,
            at: self.near,
        }
    }

    pub fn far(self) -> StoredList<'a>
        ensures labels_is { result.labels.now ≡ self.entry.labels.now }
        ensures at_is { result.at ≡ self.entry.far }
    {
        StoredList {
            labels: self.labels,
            at: self.far,
        }
    }
}

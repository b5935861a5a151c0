// A lent slice takes what was worked out in places of the call's own.
ghost use Rattle.std.specs.Prelude.{◌≡◌, ◌≤◌, length, take};
ghost use Rattle.refusals.specs.Lent.{filled};

// Fills the first places of a lent slice; later ones stay.
#[tactic(auto, unfolding(refusals::specs::Lent::filled))]
pub fn fill_first(places: &[u32; 1024], count: usize, lent: &mut [u32])
    requires { (length places.now ≡ 1024) × (count ≤ length places.now) × (count ≤ length lent.old) }
    ensures { lent.new ≡ filled lent.old (take count places.now) }
{
    lent[..count].copy_from_slice(&places[..count]);
}

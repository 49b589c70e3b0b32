//! Places of a list that are gone through over and over.
ghost use Rattle.std.specs.Prelude.{◌≡◌, ◌<◌};
ghost use Rattle.sat_adviser.specs.Round.{place_after};

/// The place after this one in a list of that length, which after the last is the first.
pub fn place_after(place: usize, len: usize) -> usize
    ensures value { result ≡ place_after place len }
    ensures within { 0 < len → result < len }
{
    let next = place.saturating_add(1);
    if next < len { next } else { 0 }
}

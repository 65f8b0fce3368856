ghost use Rattle.std.specs.Prelude.{◌≤◌, length};

use crate::places::PlaceRow;

mod methods;

// The places whose names a rule line may use: those of a game, of which there are at most 254.
#[derive(Clone, Copy)]
pub struct Names<'n, 's> {
    places: &'n [PlaceRow<'s>],
    ghost few: { length places.now ≤ 254 },
}

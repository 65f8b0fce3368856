ghost use Rattle.std.specs.Prelude.{◌≡◌, map, length, take};
ghost use Rattle.records.specs.Places.{place_shown};
ghost use Rattle.records.specs.Names.{named, position_after, known_place};

use super::Names;
use crate::places::PlaceRow;
use books::Place;
use sheets::SheetFault;
use text::{At, name, same_name};

// The most places that a board has.
const MOST_PLACES: usize = 254;

impl<'n, 's> Names<'n, 's> {
    // The names of the first 254 places.
    pub fn new(places: &'n [PlaceRow<'s>]) -> Names<'n, 's>
        ensures { named result ≡ take 254 (map place_shown places.now) }
    {
        let count = places.len().min(MOST_PLACES);
        Names {
            places: &places[0..count],
        }
    }

    // How many places there are.
    pub fn count(self) -> Place
        ensures { result ≡ length (named self.entry) }
    {
        self.places.len() as Place
    }

    // The number of the first place with the name.
    pub fn position(self, name: &[u8]) -> Option<Place>
        ensures { result ≡ position_after 0 (named self.entry) name.now }
    {
        let i = self
            .places
            .iter()
            .position(|place| same_name(place.name, name))?;
        Some(i as Place)
    }

    // The number of the place that a field names: fault 4 where the field is no name, fault 9 where no place has it.
    pub fn place(self, field: &[u8], at: At) -> Result<Place, SheetFault>
        ensures { result ≡ known_place (named self.entry) at field.now }
    {
        let name = name(field, at)?;
        self.position(name).ok_or(SheetFault::Name(at))
    }
}

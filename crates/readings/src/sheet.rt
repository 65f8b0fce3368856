// Sheets that have been read, and sheets that have a fault. Both borrow the tables that they were read into.
use records::{PlaceRow, SheetFault};

// A sheet without a fault.
#[derive(Drop)]
pub struct Sheet<'t, 's, R> {
    // the places, in the order of their lines; an expansion has those of its game
    pub places: &'t [PlaceRow<'s>],
    // the rules, in the order of their lines
    pub rules: &'t [R],
    // the entries of the tables past those
    pub(crate) free_places: &'t [PlaceRow<'s>],
    pub(crate) free_rules: &'t [R],
}

// A sheet with a fault, and the whole tables as it leaves them; an expansion has the places of its game.
#[derive(Drop)]
pub struct Refused<'t, 's, R> {
    pub fault: SheetFault,
    pub places: &'t [PlaceRow<'s>],
    pub rules: &'t [R],
}

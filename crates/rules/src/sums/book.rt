// Books of sums.
use crate::rows::RowBook;
use crate::sums::row::SumRow;

// A book of sums on boards of so many places. A row that is for other boards strikes nothing. A board is settled under it, where
// no span is empty, exactly when it is bounds consistent for every row that was made for its count of places.
pub type SumBook<'t> = RowBook<'t, SumRow>;

// Books of rules over choices.
use crate::choices::row::ChoiceRow;
use crate::rows::RowBook;

// Rules over choices, on boards of so many places. A board is settled under them, where no span is empty, exactly when it is arc
// consistent for every row that was made for its count of places.
pub type ChoiceBook<'t> = RowBook<'t, ChoiceRow>;

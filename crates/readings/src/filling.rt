// Tables filled from the lines of a sheet. A line's entry is written once all its checks are passed.
ghost use Rattle.std.specs.Prelude.{◌≡◌, ℕ, map, length, OnOk};
ghost use Rattle.records.specs.Names.{named};
ghost use Rattle.records.specs.Places.{place_shown};
ghost use Rattle.readings.specs.Tables.{laid, answered, rules_ahead, PlacesFilled};

use crate::walk::{next_line, next_place};
use records::{Names, PlaceRow, RuleRow, SheetFault, SpanKind, read_place};
use text::Lines;

// The most places and the most rules that a book counts.
const MOST_PLACES: usize = 254;

const MOST_RULES: usize = 1000;

// Fills a table with the places of the place lines that come next, and returns how many there are.
pub(crate) fn fill_places<'s>(
    lines: &mut Lines<'s>,
    kind: SpanKind,
    places: &mut [PlaceRow<'s>],
) -> Result<usize, SheetFault>
    ensures { (rules : ℕ) → PlacesFilled kind rules (map place_shown places.old) lines.old result (map place_shown places.new) lines.new }
{
    // Counted: the count is how far the table is filled, which each line is checked against and the caller is told.
    let mut count = 0;
    while let Some(line) = next_place(lines) {
        let place = read_place(kind, &places[0..count], line, lines.read())?;
        if count >= places.len() || count >= MOST_PLACES {
            return Err(SheetFault::Full { line: lines.read() });
        }
        places[count] = place;
        count += 1;
    }
    Ok(count)
}

// Fills a table with the rules of the lines that are left, and returns how many there are. No one function with the places: a
// place is read behind those before it, and any other line ends them.
pub(crate) fn fill_rules<R: RuleRow>(
    lines: &mut Lines,
    names: Names,
    rules: &mut [R],
) -> Result<usize, SheetFault>
    ensures answer { result ≡ answered (length (rules_ahead R.RuleRow.sheets (length rules.old) (named names.entry) lines.old).rules) (rules_ahead R.RuleRow.sheets (length rules.old) (named names.entry) lines.old).fault }
    ensures rules { map R.RuleRow.holds rules.new ≡ laid (rules_ahead R.RuleRow.sheets (length rules.old) (named names.entry) lines.old).rules (map R.RuleRow.holds rules.old) }
    ensures read { OnOk result (lines.new.read ≡ (rules_ahead R.RuleRow.sheets (length rules.old) (named names.entry) lines.old).lines) }
{
    // Counted, as above.
    let mut count = 0;
    while let Some(line) = next_line(lines)? {
        let rule = R::read(names, line, lines.read())?;
        if count >= rules.len() || count >= MOST_RULES {
            return Err(SheetFault::Full { line: lines.read() });
        }
        rules[count] = rule;
        count += 1;
    }
    Ok(count)
}

// Whole sheets read into tables.
ghost use Rattle.std.specs.Prelude.{◌≡◌, map, length};
ghost use Rattle.records.specs.Names.{named};
ghost use Rattle.records.specs.Places.{place_shown};
ghost use Rattle.readings.specs.Lines.{lines_left, lines_after, read_after, raised};
ghost use Rattle.readings.specs.Readings.{game_read, expansion_read};
ghost use Rattle.readings.specs.Tables.{title_answer, Filled, answered, laid};
ghost use Rattle.text.specs.Lines.{size_checked};

use crate::filling::{fill_places, fill_rules};
use crate::walk::next_line;
use records::{Names, PlaceRow, RuleRow, SheetFault, SheetKind, SpanKind, check_title};
use text::{FieldFault, Lines, check_size};

// How many entries of the tables a sheet fills: sizes of tables, and no counts of a book.
#[derive(Clone, Copy, PartialEq, Eq, Debug)]
pub(crate) struct Counts {
    pub places: usize,
    pub rules: usize,
}

// Fault 1 for a sheet that is too big. A step of its own, since `?` raises a fault by one layer at a time.
fn check_sheet(sheet: &[u8]) -> Result<(), FieldFault>
    ensures { result ≡ raised (size_checked sheet.now) }
{
    check_size(sheet)?;
    Ok(())
}

// Reads the next line, which has to be the title asked for.
fn read_title(asked: SheetKind, kind: SpanKind, lines: &mut Lines) -> Result<(), SheetFault>
    ensures answer { result ≡ title_answer asked kind lines.old.read (lines_left lines.old) }
    ensures left { lines_left lines.new ≡ lines_after (lines_left lines.old) }
    ensures read { lines.new.read ≡ read_after lines.old.read (lines_left lines.old) }
{
    let line = next_line(lines)?.ok_or(SheetFault::Title)?;
    check_title(asked, kind, line)
}

// Fills the tables of a game, and returns how many of their entries it fills.
pub(crate) fn fill_game<'s, R: RuleRow>(
    sheet: &'s [u8],
    places: &mut [PlaceRow<'s>],
    rules: &mut [R],
) -> Result<Counts, SheetFault>
    ensures { Filled (game_read R.RuleRow.sheets (length places.old) (length rules.old) sheet.now) result (map place_shown places.old) (map R.RuleRow.holds rules.old) (map place_shown places.new) (map R.RuleRow.holds rules.new) }
{
    check_sheet(sheet)?;
    let mut lines = Lines::new(sheet);
    let kind = R::kind();
    read_title(SheetKind::Game, kind, &mut lines)?;
    let place_count = fill_places(&mut lines, kind, places)?;
    let names = Names::new(&places[0..place_count]);
    let rule_count = fill_rules(&mut lines, names, rules)?;
    if place_count == 0 {
        return Err(SheetFault::NoPlace { line: lines.read() });
    }
    Ok(Counts {
        places: place_count,
        rules: rule_count,
    })
}

// Fills the table of an expansion, whose rules use the names given, and returns how many of its entries it fills.
pub(crate) fn fill_expansion<R: RuleRow>(
    sheet: &[u8],
    names: Names,
    rules: &mut [R],
) -> Result<usize, SheetFault>
    ensures told { result ≡ answered (length (expansion_read R.RuleRow.sheets (named names.entry) (length rules.old) sheet.now).rules) (expansion_read R.RuleRow.sheets (named names.entry) (length rules.old) sheet.now).fault }
    ensures rules { map R.RuleRow.holds rules.new ≡ laid (expansion_read R.RuleRow.sheets (named names.entry) (length rules.old) sheet.now).rules (map R.RuleRow.holds rules.old) }
{
    check_sheet(sheet)?;
    let mut lines = Lines::new(sheet);
    read_title(SheetKind::Expansion, R::kind(), &mut lines)?;
    fill_rules(&mut lines, names, rules)
}

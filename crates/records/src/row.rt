// The rows that rule lines fill: sums on sheets of amounts, pair and apart rules on sheets of choices.
ghost use Rattle.std.specs.Prelude.{◌≡◌, ℤ};
ghost use Rattle.sheets.specs.declared.title.SpanKind.{SpanKind};
ghost use Rattle.sheets.specs.declared.title.SpanKind.TheVariants.{Amounts, Choices};
ghost use Rattle.text.specs.Fields.{fields_of};
ghost use Rattle.records.specs.Names.{named};
ghost use Rattle.records.specs.Rules.{Row};
ghost use Rattle.records.specs.Meanings.{Meant};
ghost use Rattle.records.specs.Sums.{sum_shown};
ghost use Rattle.records.specs.Between.{choice_shown};
ghost use Rattle.records.specs.RuleLines.{sum_line_of, pair_line_of, apart_line_of, rule_line_of, shown_rule, opens};

use crate::names::Names;
use crate::places::Opening;
use crate::record::{Record, Word, line_word, word_record};
use crate::sums::read_sum;
use crate::two::{read_apart, read_pair};
use rules::choices::ChoiceRow;
use rules::rows;
use rules::sums::SumRow;
use sheets::{SheetFault, SpanKind};
use spans::{Amount, Choice, Span};

// A row of a table that the rule lines of one kind of sheet fill.
pub trait RuleRow: Copy {
    // the spans that the rules of the sheet are over
    type Span: Span;

    // the kind of sheet
    ghost sheets: { SpanKind };

    // the rule that a row holds
    ghost holds: { Self → Row };

    // The kind of span that the sheet speaks of.
    fn kind() -> SpanKind
        ensures { result ≡ sheets };

    // The row of a rule line, or its first fault.
    fn read(names: Names, bytes: &[u8], line: usize) -> Result<Self, SheetFault>
        ensures { shown_rule holds result ≡ rule_line_of sheets (named names.entry) line bytes.now };

    // The span of a place at the opening: it admits nothing where the place is one of the other kind of sheet.
    fn open(opening: Opening) -> Self::Span
        ensures { (x : ℤ) → Self.Span.Span.kind.admits result x ≡ opens sheets opening x };
}

// Such a row that is a row of a book, too.
pub trait BookRow: RuleRow + rows::Row {
    // Does nothing. Its contract is that each row is for the boards of the rule that it holds, and means that rule.
    fn means()
        ensures { (row : Self) → Meant (Self.boards row) (Self.rule row) (Self.holds row) };
}

// Three functions and not one, as each takes other fields out of its record and makes another row of them. Names and line go
// down as two parameters: `read` takes them so, and a struct of both would make each clause longer.

// The row of a pair line.
fn pair_line(names: Names, bytes: &[u8], line: usize) -> Result<ChoiceRow, SheetFault>
    ensures { shown_rule choice_shown result ≡ pair_line_of (named names.entry) line (fields_of bytes.now) }
{
    let Some(
        Record::Pair {
            first,
            second,
            pairs,
        },
    ) = word_record(SpanKind::Choices, Word::Pair, bytes)
    else {
        return Err(SheetFault::Count { line });
    };
    let row = read_pair(names, first, second, pairs, line)?;
    Ok(ChoiceRow::Pair(row))
}

// The row of an apart line.
fn apart_line(names: Names, bytes: &[u8], line: usize) -> Result<ChoiceRow, SheetFault>
    ensures { shown_rule choice_shown result ≡ apart_line_of (named names.entry) line (fields_of bytes.now) }
{
    let Some(Record::Apart { first, second }) = word_record(SpanKind::Choices, Word::Apart, bytes)
    else {
        return Err(SheetFault::Count { line });
    };
    let row = read_apart(names, first, second, line)?;
    Ok(ChoiceRow::Apart(row))
}

// The row of a sum line.
fn sum_line(names: Names, bytes: &[u8], line: usize) -> Result<SumRow, SheetFault>
    ensures { shown_rule sum_shown result ≡ sum_line_of (named names.entry) line (fields_of bytes.now) }
{
    let Some(
        Record::Sum {
            relation,
            bound,
            terms,
        },
    ) = word_record(SpanKind::Amounts, Word::Sum, bytes)
    else {
        return Err(SheetFault::Count { line });
    };
    read_sum(names, relation, bound, terms, line)
}

impl RuleRow for SumRow {
    type Span = Amount;

    ghost sheets = { Amounts };

    ghost holds = { sum_shown };

    fn kind() -> SpanKind {
        SpanKind::Amounts
    }

    fn read(names: Names, bytes: &[u8], line: usize) -> Result<SumRow, SheetFault> {
        match line_word(bytes) {
            Some(Word::Sum) => sum_line(names, bytes, line),
            _ => Err(SheetFault::Word { line }),
        }
    }

    fn open(opening: Opening) -> Amount {
        match opening {
            Opening::Amount { floor, ceiling } => Amount::between(floor, ceiling),
            Opening::Tokens { .. } => Amount::empty(),
        }
    }
}

impl RuleRow for ChoiceRow {
    type Span = Choice;

    ghost sheets = { Choices };

    ghost holds = { choice_shown };

    fn kind() -> SpanKind {
        SpanKind::Choices
    }

    fn read(names: Names, bytes: &[u8], line: usize) -> Result<ChoiceRow, SheetFault> {
        match line_word(bytes) {
            Some(Word::Pair) => pair_line(names, bytes, line),
            Some(Word::Apart) => apart_line(names, bytes, line),
            _ => Err(SheetFault::Word { line }),
        }
    }

    fn open(opening: Opening) -> Choice {
        match opening {
            Opening::Amount { .. } => Choice::empty(),
            Opening::Tokens { count } => Choice::first(count),
        }
    }
}

impl BookRow for SumRow {
    fn means() {}
}

impl BookRow for ChoiceRow {
    fn means() {}
}

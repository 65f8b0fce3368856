// A line by its word and its count of fields.
ghost use Rattle.std.specs.Prelude.{◌≡◌};
ghost use Rattle.text.specs.Fields.{fields_of, fields_left, others};
ghost use Rattle.records.specs.Words.{word_of, field_count_fits};
ghost use Rattle.records.specs.Records.{head, record_of, counted, record_of_line, shown_record, shown_line};

use sheets::SpanKind;
use text::{Fields, field_count};

// The words with which lines begin. A title begins with one of two.
#[derive(Clone, Copy, PartialEq, Eq, Debug)]
pub enum Word {
    Title,
    Place,
    Sum,
    Pair,
    Apart,
}

// A line as what its word says it is, by its fields.
#[derive(Clone, Copy)]
pub enum Record<'s> {
    Title {
        sheet: &'s [u8],
        span: &'s [u8],
    },
    // the numbers are a floor and a ceiling, or a count of tokens
    Place {
        name: &'s [u8],
        numbers: Fields<'s>,
    },
    // the terms are coefficients, each followed by a name
    Sum {
        relation: &'s [u8],
        bound: &'s [u8],
        terms: Fields<'s>,
    },
    // the pairs are tokens, two by two
    Pair {
        first: &'s [u8],
        second: &'s [u8],
        pairs: Fields<'s>,
    },
    Apart {
        first: &'s [u8],
        second: &'s [u8],
    },
}

// The next field; an empty one after the last.
pub(crate) fn next_field<'s>(fields: &mut Fields<'s>) -> &'s [u8]
    ensures field { result.now ≡ head (fields_left fields.old) }
    ensures left { fields_left fields.new ≡ others (fields_left fields.old) }
{
    fields.next().unwrap_or(b"")
}

// The word that a field is.
fn word_of(field: &[u8]) -> Option<Word>
    ensures { result ≡ word_of field.now }
{
    match field {
        b"game" | b"expansion" => Some(Word::Title),
        b"place" => Some(Word::Place),
        b"sum" => Some(Word::Sum),
        b"pair" => Some(Word::Pair),
        b"apart" => Some(Word::Apart),
        _ => None,
    }
}

// The word of a line: its first field.
pub fn line_word(line: &[u8]) -> Option<Word>
    ensures { result ≡ word_of (head (fields_of line.now)) }
{
    let mut fields = Fields::new(line);
    word_of(next_field(&mut fields))
}

// Whether a line with the word may have so many fields.
fn fits_count(word: Word, kind: SpanKind, count: usize) -> bool
    ensures { result ≡ field_count_fits word kind count }
{
    match (word, kind) {
        (Word::Title, _) => count == 2,
        (Word::Place, SpanKind::Amounts) => count == 4,
        (Word::Place, SpanKind::Choices) | (Word::Apart, _) => count == 3,
        (Word::Sum, _) => (5..=35).contains(&count) && count % 2 == 1,
        (Word::Pair, _) => (5..=203).contains(&count) && count % 2 == 1,
    }
}

// The fields of a line with the word, by their meaning.
fn take_apart<'s>(word: Word, line: &'s [u8]) -> Record<'s>
    ensures { shown_record result ≡ record_of word (fields_of line.now) }
{
    let mut fields = Fields::new(line);
    let sheet = next_field(&mut fields);
    let first = next_field(&mut fields);
    match word {
        Word::Title => Record::Title { sheet, span: first },
        Word::Place => Record::Place {
            name: first,
            numbers: fields,
        },
        Word::Sum => {
            let bound = next_field(&mut fields);
            Record::Sum {
                relation: first,
                bound,
                terms: fields,
            }
        }
        Word::Pair => {
            let second = next_field(&mut fields);
            Record::Pair {
                first,
                second,
                pairs: fields,
            }
        }
        Word::Apart => {
            let second = next_field(&mut fields);
            Record::Apart { first, second }
        }
    }
}

// The record of a line with the word, unless the line has a wrong count of fields.
pub(crate) fn word_record<'s>(kind: SpanKind, word: Word, line: &'s [u8]) -> Option<Record<'s>>
    ensures { shown_line result ≡ counted kind word (fields_of line.now) }
{
    if !fits_count(word, kind, field_count(line)) {
        return None;
    }
    Some(take_apart(word, line))
}

// The record of a line; none where its word is unknown or its count of fields is wrong.
pub(crate) fn line_record<'s>(kind: SpanKind, line: &'s [u8]) -> Option<Record<'s>>
    ensures { shown_line result ≡ record_of_line kind line.now }
{
    word_record(kind, line_word(line)?, line)
}

// The line of a rule, found in the sheets that it was written in.
ghost use Rattle.std.specs.Prelude.{◌≡◌, [], ◌++◌, slice_index_or};
ghost use Rattle.std.specs.Iterator.{YieldsFirstRef, item_count};
ghost use Rattle.readings.specs.RuleLines.{rule_line_test, ended_lines, rule_lines_of};
ghost use Rattle.readings.specs.Laws.{RuleLinesLaw};

use books::RuleNumber;
use records::{Word, line_word};
use text::length_before;

// Whether the word of the line is a rule's. The other fields are not looked at.
fn is_rule_line(line: &[u8]) -> bool
    ensures { result ≡ rule_line_test line.now }
{
    matches!(line_word(line), Some(Word::Sum | Word::Pair | Word::Apart))
}

// The lines of some bytes that a byte 10 ends, one by one and each without it. What follows the last byte 10 is no line, unlike
// the last field of a line, so that this is no reader of fields at another byte.
#[derive(Clone, Copy)]
pub(crate) struct EndedLines<'s> {
    rest: &'s [u8],
}

impl<'s> Iterator for EndedLines<'s> {
    type Item = &'s [u8];

    // each call hands out the first of the lines that are left
    ghost next_gives = { YieldsFirstRef (λ reader. ended_lines reader.rest.now) };

    ghost remaining = { item_count (λ reader. ended_lines reader.rest.now) };

    fn next(&mut self) -> Option<&'s [u8]> {
        let (line, behind) = self.rest.split_at(length_before(b'\n', self.rest));
        self.rest = behind.get(1..)?;
        Some(line)
    }
}

// The line of a rule without its byte 10, as a part of the sheet that holds it. The game's rule lines are counted
// first, from 0, and then the expansion's; a number beyond both has an empty line. The two may be any bytes.
pub fn rule_line<'s>(game: &'s [u8], expansion: &'s [u8], rule: RuleNumber) -> &'s [u8]
    ensures line { result.now ≡ slice_index_or (rule_lines_of game.now ++ rule_lines_of expansion.now) rule [] }
    ensures law { RuleLinesLaw game.now expansion.now }
{
    let lines = EndedLines { rest: game }.chain(EndedLines { rest: expansion });
    let mut rules = lines.filter(|line| is_rule_line(*line));
    rules.nth(rule as usize).unwrap_or(&game[0..0])
}

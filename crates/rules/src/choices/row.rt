ghost use Rattle.std.specs.Prelude.{◌≡◌};
ghost use Rattle.rules.specs.TokenSets.{keeping};
ghost use Rattle.rules.specs.Between.{answer_from, place_on_side};
ghost use Rattle.rules.specs.ChoiceRows.{places_of};
ghost use Rattle.rules.specs.ChoiceRules.{link_of};
ghost use Rattle.rules.specs.ChoiceBooks.{rule_of};
ghost use Rattle.rules.specs.ArcConsistency.{ArcConsistentFor};

use super::apart::{ApartRow, kept_apart};
use super::pair::PairRow;
use super::side::Side;
use crate::rows::Row;
use books::Place;
use spans::{Choice, Span};

// A rule over choices, between two places.
#[derive(Clone, Copy)]
pub enum ChoiceRow {
    Pair(PairRow),
    Apart(ApartRow),
}

impl ChoiceRow {
    // Its place on a side.
    pub fn place_on(&self, side: Side) -> Place
        ensures { result ≡ place_on_side (link_of self.now) side }
    {
        match self {
            ChoiceRow::Pair(row) => side.of(row.first, row.second),
            ChoiceRow::Apart(row) => side.of(row.first, row.second),
        }
    }

    // What the rule leaves of the span of its place on a side, by the span of its other place.
    pub fn kept(&self, side: Side, span: Choice, other: Choice) -> Choice
        ensures { result ≡ keeping span ((link_of self.now).stays side other) }
    {
        match self {
            ChoiceRow::Pair(row) => row.kept(side, span, other),
            ChoiceRow::Apart(_) => kept_apart(span, other),
        }
    }

    // Its answer for a place, from the span there and the spans of its own two places.
    pub fn answer(&self, place: Place, span: Choice, one: Choice, two: Choice) -> Choice
        ensures { result ≡ answer_from (link_of self.now) place span one two }
    {
        if one.is_empty() || two.is_empty() {
            return span;
        }
        if place == self.place_on(Side::First) {
            return self.kept(Side::First, span, two);
        }
        if place == self.place_on(Side::Second) {
            return self.kept(Side::Second, span, one);
        }
        span
    }
}

impl Row for ChoiceRow {
    type Span = Choice;

    ghost boards = { places_of };

    ghost rule = { rule_of };

    ghost consistent = { ArcConsistentFor };

    fn lawful() {}

    fn places(&self) -> Place {
        match self {
            ChoiceRow::Pair(row) => row.places,
            ChoiceRow::Apart(row) => row.places,
        }
    }

    fn scope_len(&self) -> u8 {
        2
    }

    fn scope_at(&self, i: u8) -> Option<Place> {
        match i {
            0 => Some(self.place_on(Side::First)),
            1 => Some(self.place_on(Side::Second)),
            _ => None,
        }
    }

    // One match for both places: it is asked for every rule of a book at each strike.
    fn has_place(&self, place: Place) -> bool {
        match self {
            ChoiceRow::Pair(row) => place == row.first || place == row.second,
            ChoiceRow::Apart(row) => place == row.first || place == row.second,
        }
    }

    fn answer_on(&self, place: Place, board: &[Choice]) -> Option<Choice> {
        if !self.is_on(place, board) {
            return None;
        }
        let span = board[place as usize];
        let one = board[self.place_on(Side::First) as usize];
        let two = board[self.place_on(Side::Second) as usize];
        Some(self.answer(place, span, one, two))
    }
}

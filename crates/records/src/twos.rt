// Fields that are read two by two: the terms of a sum, and the pairs of a pair rule.
ghost use Rattle.std.specs.Prelude.{◌≡◌, ℕ, ◌≤◌, ◌*◌, List, [], map, length, Result};
ghost use Rattle.text.specs.Fields.{fields_left};
ghost use Rattle.records.specs.Names.{named};
ghost use Rattle.records.specs.Places.{Place};
ghost use Rattle.records.specs.Twos.{twos_from, shown_item, shown_items};

use crate::names::Names;
use crate::record::next_field;
use rules::few::Few;
use text::{At, Fields};

// An item of a rule that two fields state.
pub(crate) trait Item: Copy {
    // what refuses an item
    type Fault;

    // what an item shows
    ghost Shown: { Type 0 };

    ghost shows: { Self → Shown };

    // what two fields show, the first of which is the field f of a line, behind the items given
    ghost reads: { List Place → (line f : ℕ) → List Shown → List ℕ → List ℕ → Result Shown Self.Fault };

    // what stands where no item is
    const BLANK: Self;

    // The item of two fields, the first of which is at the place given, behind the items that the rule has already.
    fn read(
        names: Names,
        items: &[Self],
        first: &[u8],
        second: &[u8],
        at: At,
    ) -> Result<Self, Self::Fault>
        requires { at.field ≤ 1000 }
        ensures { shown_item shows result ≡ reads (named names.entry) at.line at.field (map shows items.now) first.now second.now };
}

// The items of a line's fields, from its field 3 on.
pub(crate) fn read_twos<T: Item, const N: usize>(
    names: Names,
    fields: Fields,
    line: usize,
) -> Result<Few<T, N>, T::Fault>
    requires room { length (fields_left fields) ≤ 2 * N }
    requires few { N ≤ 100 }
    ensures { shown_items T.shows result ≡ twos_from (T.reads (named names.entry) line) 3 [] (fields_left fields.entry) }
{
    let mut left = fields;
    let mut items = Few::empty(T::BLANK);
    let mut field = 3;
    // A loop and not a chain: each turn takes two fields, and reads them behind the items so far.
    while let Some(first) = left.next() {
        let second = next_field(&mut left);
        let item = T::read(names, items.as_slice(), first, second, At { line, field })?;
        // Never refused, since the line has fields for N items at most. No `unwrap`: the proof reads the arm that is taken.
        let Ok(()) = items.push(item) else {
            unreachable!()
        };
        field += 2;
    }
    Ok(items)
}

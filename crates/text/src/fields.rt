// The fields of a line: its parts between tabs.
ghost use Rattle.std.specs.Prelude.{◌≡◌, ◌-◌, ◌^◌, min, length};
ghost use Rattle.std.specs.Iterator.{YieldsFirstRef, item_count};
ghost use Rattle.text.specs.Parts.{PartsLaw};
ghost use Rattle.text.specs.Fields.{fields_of, fields_left};

use crate::part::length_before;

const TAB: u8 = 9;

// A reader of a line's fields: what is left of the line, or nothing once the last field is handed out.
#[derive(Clone, Copy)]
pub struct Fields<'l> {
    rest: Option<&'l [u8]>,
}

impl<'l> Fields<'l> {
    // A reader before the first field of the line.
    pub fn new(line: &'l [u8]) -> Fields<'l>
        ensures left { fields_left result ≡ fields_of line.now }
        ensures law { PartsLaw 9 line.now }
    {
        Fields { rest: Some(line) }
    }
}

impl<'l> Iterator for Fields<'l> {
    type Item = &'l [u8];

    // each call hands out the first of the fields left; after the last there is nothing, and nothing is left
    ghost next_gives = { YieldsFirstRef fields_left };

    ghost remaining = { item_count fields_left };

    fn next(&mut self) -> Option<&'l [u8]> {
        let rest = self.rest?;
        let (field, behind) = rest.split_at(length_before(TAB, rest));
        self.rest = behind.get(1..);
        Some(field)
    }
}

// How many fields a line has, one at least. (A line that fills all memory with tabs has one more than is told.)
pub fn field_count(line: &[u8]) -> usize
    ensures { result ≡ min (length (fields_of line.now)) (2 ^ 64 - 1) }
{
    // A sum, and no count behind a filter, which branches at each byte.
    let tabs: usize = line.iter().map(|b| usize::from(*b == TAB)).sum();
    tabs.saturating_add(1)
}

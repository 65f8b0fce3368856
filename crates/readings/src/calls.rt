// The calls that read sheets.
ghost use Rattle.std.specs.Prelude.{◌≡◌, ◌≤◌, map, length, take, drop};
ghost use Rattle.records.specs.Places.{place_shown};
ghost use Rattle.readings.specs.Readings.{game_read, expansion_read};
ghost use Rattle.readings.specs.Seen.{seen, shows, added, adds};
ghost use Rattle.readings.specs.Laws.{GameLaw, ExpansionLaw};

use crate::reading::{Counts, fill_expansion, fill_game};
use crate::sheet::{Refused, Sheet};
use records::{Names, PlaceRow, RuleRow};

// The tables with their first entries, so many, apart from the rest.
fn parted<'t, 's, R: RuleRow>(
    places: &'t [PlaceRow<'s>],
    rules: &'t [R],
    counts: Counts,
) -> Sheet<'t, 's, R>
    requires places { counts.places ≤ length places.now }
    requires rules { counts.rules ≤ length rules.now }
    ensures places { result.places.now ≡ take counts.places places.now }
    ensures rules { result.rules.now ≡ take counts.rules rules.now }
    ensures unfilled { result.free_places.now ≡ drop counts.places places.now }
    ensures unused { result.free_rules.now ≡ drop counts.rules rules.now }
{
    let place_count = counts.places;
    let rule_count = counts.rules;
    Sheet {
        places: &places[0..place_count],
        rules: &rules[0..rule_count],
        free_places: &places[place_count..],
        free_rules: &rules[rule_count..],
    }
}

// Reads a game into tables, from their first entries on. A place line fills the next entry for places, a rule line the next
// for rules; the entries past those stay, and so do those of a line with a fault and of the lines behind it.
pub fn read_game<'t, 's, R: RuleRow>(
    sheet: &'s [u8],
    places: &'t mut [PlaceRow<'s>],
    rules: &'t mut [R],
) -> Result<Sheet<'t, 's, R>, Refused<'t, 's, R>>
    ensures read { seen R.RuleRow.holds result ≡ shows (game_read R.RuleRow.sheets (length places.old) (length rules.old) sheet.now) (map place_shown places.old) (map R.RuleRow.holds rules.old) }
    ensures law { GameLaw R.RuleRow.sheets (length places.old) (length rules.old) sheet.now }
{
    // A match: both answers go on borrowing the tables, which two closures could not.
    match fill_game(sheet, places, rules) {
        Ok(counts) => Ok(parted(places, rules, counts)),
        Err(fault) => Err(Refused {
            fault,
            places,
            rules,
        }),
    }
}

// The places of a game over a table of rules, whose first entries, so many, are apart from the rest.
fn extended<'t, 's, R: RuleRow>(
    game: &Sheet<'t, 's, R>,
    rules: &'t [R],
    count: usize,
) -> Sheet<'t, 's, R>
    requires { count ≤ length rules.now }
    ensures places { result.places ≡ game.now.places }
    ensures rules { result.rules.now ≡ take count rules.now }
    ensures unused { result.free_rules.now ≡ drop count rules.now }
{
    Sheet {
        places: game.places,
        rules: &rules[0..count],
        free_places: game.free_places,
        free_rules: &rules[count..],
    }
}

// No one call for games and expansions: an expansion is read into one table and with the places of another sheet.

// Reads an expansion of a game, whose first 254 names its rules may use, into a table, from its first entry on. The table's
// other entries stay, as for a game.
pub fn read_expansion<'t, 's, R: RuleRow>(
    sheet: &[u8],
    game: &Sheet<'t, 's, R>,
    rules: &'t mut [R],
) -> Result<Sheet<'t, 's, R>, Refused<'t, 's, R>>
    ensures read { added R.RuleRow.holds result ≡ adds (expansion_read R.RuleRow.sheets (take 254 (map place_shown game.now.places.now)) (length rules.old) sheet.now) (map place_shown game.now.places.now) (map R.RuleRow.holds rules.old) }
    ensures law { ExpansionLaw R.RuleRow.sheets (take 254 (map place_shown game.now.places.now)) (length rules.old) sheet.now }
{
    let names = Names::new(game.places);
    // A match, as above.
    match fill_expansion(sheet, names, rules) {
        Ok(count) => Ok(extended(game, rules, count)),
        Err(fault) => Err(Refused {
            fault,
            places: game.places,
            rules,
        }),
    }
}

// What a title names.

// A game declares places, and an expansion uses those of a game.
#[derive(Clone, Copy, PartialEq, Eq, Debug)]
pub enum SheetKind {
    Game,
    Expansion,
}

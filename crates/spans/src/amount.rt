ghost use Rattle.std.specs.Prelude.{◌≡◌, T};
ghost use Rattle.spans.specs.Bounds.{proper};

mod methods;

// An amount admits every number from its floor to its ceiling. The one empty amount has floor 1 and ceiling 0, as the game is told.
#[derive(Clone, Copy, PartialEq, Eq, Debug)]
pub struct Amount {
    floor: i32,
    ceiling: i32,
    ghost ok: { T (proper floor ceiling) },
}

impl Amount {
    // The least number admitted; 1 where the amount is empty.
    pub fn floor(self) -> i32
        ensures { result ≡ self.floor }
    {
        self.floor
    }

    // The greatest number admitted; 0 where the amount is empty.
    pub fn ceiling(self) -> i32
        ensures { result ≡ self.ceiling }
    {
        self.ceiling
    }
}

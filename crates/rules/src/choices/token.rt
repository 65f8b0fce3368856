ghost use Rattle.std.specs.Prelude.{T};
ghost use Rattle.rules.specs.ChoiceTests.{are_tokens};

mod methods;

// Two tokens that go together: one for the first place of a rule, and one for the second.
#[derive(Clone, Copy, PartialEq, Eq, Debug)]
pub struct TokenPair {
    pub first: u8,
    pub second: u8,
    ghost ok: { T (are_tokens first second) },
}

ghost use Rattle.std.specs.Prelude.{T};
ghost use Rattle.spans.specs.Masks.{is_mask};

mod methods;

// A choice is a set of tokens, and a token is one of the numbers 0 to 63. The mask has the bit of each token that is in the set.
#[derive(Clone, Copy, PartialEq, Eq, Debug)]
pub struct Choice {
    mask: u64,
    ghost ok: { T (is_mask mask) },
}

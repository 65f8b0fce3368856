// What a choice admits, by the numbers of its tokens.
ghost use Rattle.std.specs.Prelude.{◌≡◌, false, pos, Some, None, ◌==◌};
ghost use Rattle.spans.specs.Choices.{choice_admits, choice_size, choice_least};

use spans::{Choice, Span};

// Whether the token is admitted.
pub(crate) fn has_token(span: Choice, token: u8) -> bool
    ensures { result ≡ choice_admits span (pos token) }
{
    span.admits(token as i32)
}

// The token that is the only one admitted, if there is such a one.
pub(crate) fn only_token(span: Choice) -> Option<u8>
    ensures { elim result [ Some token ↦ (choice_size span ≡ 1) × (choice_least span ≡ pos token) | None ↦ (choice_size span == 1) ≡ false ] }
{
    if !span.is_single() {
        return None;
    }
    let token = span.least()?;
    Some(token as u8)
}

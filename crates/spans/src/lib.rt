// Spans: sets of numbers. A number is a whole number from -1,000,000 to 1,000,000.
#![tactic(auto)]

ghost use Rattle.std.specs.Prelude.{◌≡◌, ◌≤◌, ◌≢◌, Decides, MatchBool, ◌==◌, nat_lt};
ghost use Rattle.spans.specs.Kind.{Kind, least_of, Empty, Single, Within};

pub mod amount;
pub mod choice;
pub mod refusal;

pub use amount::Amount;
pub use choice::Choice;
pub use refusal::SpanRefusal;

#[cfg(test)]
mod tests;

// A span is a set of numbers, and is known by which numbers it admits.
pub trait Span: Copy {
    // What the spans of this kind mean, with the laws that they keep.
    ghost kind: { Kind Self };

    // The common part: it admits exactly what both admit.
    fn common(self, other: Self) -> Self
        ensures { result ≡ kind.meet self other };

    // How many numbers are admitted.
    fn count(self) -> u32
        ensures { result ≡ kind.size self };

    // Whether the number is admitted.
    fn admits(self, number: i32) -> bool
        ensures { result ≡ kind.admits self number };

    // The least number admitted, if any.
    fn least(self) -> Option<i32>
        ensures { result ≡ least_of kind self };

    // Whether no number is admitted.
    fn is_empty(self) -> bool
        ensures count { result ≡ (kind.size self == 0) }
        ensures means { Decides result (Empty kind self) }
    {
        self.count() == 0
    }

    // Whether exactly one number is admitted.
    fn is_single(self) -> bool
        ensures count { result ≡ (kind.size self == 1) }
        ensures means { Decides result (Single kind self) }
    {
        self.count() == 1
    }

    // Whether fewer numbers are admitted than the other span admits. Where the other admits them all, true says that the two
    // spans differ, and false that they are the same.
    fn is_narrower(self, other: Self) -> bool
        ensures count { result ≡ nat_lt (kind.size self) (kind.size other) }
        ensures most { Within kind self other → kind.size self ≤ kind.size other }
        ensures means { Within kind self other → MatchBool result (self ≢ other) (self ≡ other) }
    {
        self.count() < other.count()
    }
}

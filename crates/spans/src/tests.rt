use crate::{Amount, Choice, Span, SpanRefusal};
use std::test::Fail;

#[test]
fn widest_amounts(rt: HostRuntime) -> Result<(), Fail> {
    let top = Amount::new(1_000_000, 1_000_000)?;
    assert_eq!(rt; top.least(), Some(1_000_000));
    assert!(rt; top.is_single(), "one number");
    assert_eq!(rt; Amount::new(-1_000_000, 1_000_000)?.count(), 2_000_001);
    Ok(())
}

#[test]
fn refused_amounts(rt: HostRuntime) {
    assert_eq!(rt; Amount::new(0, 1_000_001), Err(SpanRefusal::AmountBounds));
    assert_eq!(rt; Amount::new(-1_000_001, 0), Err(SpanRefusal::AmountBounds));
    assert_eq!(rt; Amount::new(1, 0), Err(SpanRefusal::AmountBounds));
    assert_eq!(rt; SpanRefusal::AmountBounds.number(), 19);
}

#[test]
fn common_amounts(rt: HostRuntime) -> Result<(), Fail> {
    let low = Amount::new(-3, 5)?;
    let high = Amount::new(5, 9)?;
    assert_eq!(rt; low.common(high), Amount::new(5, 5)?);
    let none = low.common(Amount::new(6, 9)?);
    assert_eq!(rt; none, Amount::empty());
    assert_eq!(rt; (none.floor(), none.ceiling(), none.count()), (1, 0, 0));
    assert_eq!(rt; none.least(), None);
    Ok(())
}

#[test]
fn tokens(rt: HostRuntime) {
    let last = Choice::only(63);
    assert!(rt; last.admits(63) && !last.admits(64) && !last.admits(-1));
    assert_eq!(rt; last.least(), Some(63));
    assert_eq!(rt; Choice::empty().with(63).with(64), last);
    assert_eq!(rt; Choice::first(64).without(63), Choice::first(63));
    assert_eq!(rt; Choice::first(255).count(), 64);
}

#[test]
fn common_choices(rt: HostRuntime) {
    let low = Choice::first(3);
    let odd = Choice::only(1).with(3);
    assert_eq!(rt; low.common(odd), Choice::only(1));
    assert!(rt; low.common(odd).is_narrower(low));
    assert!(rt; low.common(Choice::only(3)).is_empty());
}

#[test]
fn texts(rt: HostRuntime) -> Result<(), Fail> {
    let alloc = rt.alloc();
    assert_eq!(rt; Amount::new(-4, 8)?.to_string(alloc)?.as_str(), "-4..8");
    assert_eq!(rt;
        Choice::first(2).with(63).to_string(alloc)?.as_str(),
        "{ 0 1 63 }"
    );
    assert_eq!(rt; Choice::empty().to_string(alloc)?.as_str(), "{ }");
    Ok(())
}

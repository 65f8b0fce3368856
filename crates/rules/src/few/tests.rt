use super::Few;

#[test]
fn full_lists_refuse(rt: HostRuntime) {
    let mut few: Few<u8, 2> = Few::empty(0);
    assert!(rt; few.as_slice().is_empty());
    assert_eq!(rt; few.push(7), Ok(()));
    assert_eq!(rt; few.push(8), Ok(()));
    assert_eq!(rt; few.push(9), Err(9));
    assert!(rt; few.as_slice() == [7, 8].as_slice());
    let more: Option<Few<u8, 2>> = Few::from_slice(&[1, 2, 3], 0);
    assert!(rt; more.is_none());
}

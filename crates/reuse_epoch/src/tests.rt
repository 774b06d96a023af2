use super::*;

#[test]
fn waits_for_each_client_until_it_moves_on(rt: HostRuntime) {
    let mut grace = Grace::new();
    assert_eq!(rt; grace.first(), None);
    grace.note(1, 4);
    assert_eq!(rt; grace.first(), None);
    grace.note(2, 7);
    grace.note(64, 9);
    assert_eq!(rt; grace.first(), Some((2, 7)));
    grace.seen(2, 7);
    grace.seen(3, 8);
    assert_eq!(rt; grace.first(), Some((2, 7)));
    grace.seen(2, 8);
    assert_eq!(rt; grace.first(), Some((64, 9)));
    grace.seen(64, 11);
    assert_eq!(rt; grace.first(), None);
}

#[test]
fn waits_for_nobody_once_cleared(rt: HostRuntime) {
    let mut grace = Grace::new();
    grace.note(5, 1);
    grace.note(6, 3);
    grace.clear();
    assert_eq!(rt; grace.first(), None);
}

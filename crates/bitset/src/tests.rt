// Sets at the first place, at the last, and past it.
use super::Places;

const LAST: u64 = 0x8000_0000_0000_0000;

fn set(word: u64) -> Places {
    Places::from(word)
}

#[test]
fn membership(rt: HostRuntime) {
    assert_eq!(rt; set(1).contains(0), true);
    assert_eq!(rt; set(1).contains(1), false);
    assert_eq!(rt; set(LAST).contains(63), true);
    assert_eq!(rt; set(LAST).contains(62), false);
    assert_eq!(rt; set(u64::MAX).contains(64), false);
    assert_eq!(rt; set(u64::MAX).contains(u32::MAX as usize), false);
}

#[test]
fn one_place_more_or_less(rt: HostRuntime) {
    assert_eq!(rt; set(0).with(0), set(1));
    assert_eq!(rt; set(1).with(0), set(1));
    assert_eq!(rt; set(0).with(63), set(LAST));
    assert_eq!(rt; set(5).with(64), set(5));
    assert_eq!(rt; set(7).without(1), set(5));
    assert_eq!(rt; set(5).without(1), set(5));
    assert_eq!(rt; set(LAST).without(63), set(0));
    assert_eq!(rt; set(u64::MAX).without(64), set(u64::MAX));
}

#[test]
fn two_sets(rt: HostRuntime) {
    assert_eq!(rt; set(7) - set(2), set(5));
    assert_eq!(rt; set(u64::MAX) - set(u64::MAX), set(0));
    assert_eq!(rt; set(5).meets(set(2)), false);
    assert_eq!(rt; set(LAST).meets(set(u64::MAX)), true);
}

#[test]
fn counts(rt: HostRuntime) {
    assert_eq!(rt; set(0).len(), 0);
    assert_eq!(rt; set(u64::MAX).len(), 64);
    assert_eq!(rt; set(0).first(), None);
    assert_eq!(rt; set(6).first(), Some(1));
    assert_eq!(rt; set(LAST).first(), Some(63));
}

#[test]
fn words(rt: HostRuntime) {
    assert_eq!(rt; Places::default(), set(0));
    assert_eq!(rt; set(0).is_empty(), true);
    assert_eq!(rt; set(LAST).is_empty(), false);
    assert_eq!(rt; u64::from(set(LAST)), LAST);
}

#[test]
fn members(rt: HostRuntime) {
    let mut left = set(LAST).with(1).into_iter();
    assert_eq!(rt; left.next(), Some(1));
    assert_eq!(rt; left.next(), Some(63));
    assert_eq!(rt; left.next(), None);
    assert_eq!(rt; left.next(), None);
}

// The first attribute of a set.
use super::first_unnumbered;
use bitset::Places;

#[test]
fn first_of_a_set(rt: HostRuntime) {
    assert_eq!(rt; first_unnumbered(Places::from(0)), None);
    assert_eq!(rt; first_unnumbered(Places::from(1)), Some(1));
    assert_eq!(rt; first_unnumbered(Places::from(12)), Some(3));
    assert_eq!(rt;
        first_unnumbered(Places::from(0x8000_0000_0000_0000)),
        Some(64)
    );
}

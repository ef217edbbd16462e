// Listings of refusals, in buffers that are longer, as long, too short and empty.
use super::list;
use refusal::{Refusal, Site};

fn listed(refusal: Refusal, buffer: &mut [u8]) -> Result<usize, Refusal> {
    list(&Err(refusal), buffer)
}

#[test]
fn as_long(rt: HostRuntime) {
    let mut buffer = [b'x'; 15];
    assert_eq!(rt; listed(Refusal::TableSize, &mut buffer), Ok(15));
    assert_eq!(rt; &buffer, b"refused 1 at 0\n");
}

#[test]
fn longer(rt: HostRuntime) {
    let mut buffer = [b'x'; 20];
    assert_eq!(rt; listed(Refusal::NoSuch { record: 9 }, &mut buffer), Ok(15));
    assert_eq!(rt; &buffer, b"refused 5 at 9\nxxxxx");
}

#[test]
fn too_short(rt: HostRuntime) {
    let refusal = Refusal::BadIndex { holder: 4096 };
    let mut buffer = [b'x'; 17];
    assert_eq!(rt;
        listed(refusal, &mut buffer),
        Err(Refusal::ListingTooLong { needed: 18 })
    );
    assert_eq!(rt; &buffer, b"xxxxxxxxxxxxxxxxx");
    assert_eq!(rt;
        listed(refusal, &mut []),
        Err(Refusal::ListingTooLong { needed: 18 })
    );
}

#[test]
fn node_alone(rt: HostRuntime) {
    let site = Site {
        node: 307,
        attribute: 12,
    };
    let mut buffer = [b'x'; 18];
    assert_eq!(rt; listed(Refusal::Undefined { site }, &mut buffer), Ok(18));
    assert_eq!(rt; &buffer, b"refused 23 at 307\n");
}

#[test]
fn bytes_needed(rt: HostRuntime) {
    let refusal = Refusal::ListingTooLong { needed: usize::MAX };
    let mut buffer = [b'x'; 36];
    assert_eq!(rt; listed(refusal, &mut buffer), Ok(35));
    assert_eq!(rt; &buffer, b"refused 24 at 18446744073709551615\nx");
}

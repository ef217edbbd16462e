// Both kinds at their edges.
use super::lengths::Lengths;
use super::marks::Marks;
use super::{ValueKind, lengths, marks};
use refusal::{Refusal, Site, Unlisted};
use std::test::Fail;

const SITE: Site = Site {
    node: 3,
    attribute: 2,
};

#[test]
fn lengths_admitted(rt: HostRuntime) {
    assert!(rt; Lengths.admits(lengths::Operation::Constant as u16, 65535, 0));
    assert!(rt; Lengths.admits(lengths::Operation::Add as u16, 0, 1));
    assert!(rt; Lengths.admits(lengths::Operation::Subtract as u16, 0, 9));
    assert!(rt; !Lengths.admits(0, 0, 0));
    assert!(rt; !Lengths.admits(0, 0, 1));
    assert!(rt; !Lengths.admits(lengths::Operation::Constant as u16, 0, 1));
    assert!(rt; !Lengths.admits(lengths::Operation::Add as u16, 0, 0));
    assert!(rt; !Lengths.admits(5, 0, 1));
}

#[test]
fn lengths_start(rt: HostRuntime) {
    assert_eq!(rt;
        Lengths.start(SITE, lengths::Operation::Constant as u16, 65535, 0),
        Ok(65535)
    );
    assert_eq!(rt;
        Lengths.start(SITE, lengths::Operation::Greater as u16, 7, 2),
        Ok(7)
    );
    assert_eq!(rt;
        Lengths.start(SITE, lengths::Operation::Greater as u16, 7, 0),
        Err(Refusal::Undefined { site: SITE })
    );
}

#[test]
fn lengths_step(rt: HostRuntime) {
    let undefined = Err(Refusal::Undefined { site: SITE });
    assert_eq!(rt;
        Lengths.step(SITE, lengths::Operation::Add as u16, 999_999_999, 1),
        Ok(1_000_000_000)
    );
    assert_eq!(rt;
        Lengths.step(SITE, lengths::Operation::Add as u16, 1_000_000_000, 1),
        undefined
    );
    assert_eq!(rt;
        Lengths.step(SITE, lengths::Operation::Subtract as u16, -999_999_999, 1),
        Ok(-1_000_000_000)
    );
    assert_eq!(rt;
        Lengths.step(SITE, lengths::Operation::Subtract as u16, -1_000_000_000, 1),
        undefined
    );
    assert_eq!(rt;
        Lengths.step(SITE, lengths::Operation::Add as u16, i32::MAX, i32::MAX),
        undefined
    );
    assert_eq!(rt;
        Lengths.step(SITE, lengths::Operation::Greater as u16, -3, 2),
        Ok(2)
    );
    assert_eq!(rt;
        Lengths.step(SITE, lengths::Operation::Greater as u16, 2, -3),
        Ok(2)
    );
    assert_eq!(rt;
        Lengths.step(SITE, lengths::Operation::Constant as u16, 2, 3),
        undefined
    );
    assert_eq!(rt; Lengths.step(SITE, 0, 2, 3), undefined);
    assert_eq!(rt; Lengths.step(SITE, 5, 2, 3), undefined);
}

#[test]
fn marks_admitted(rt: HostRuntime) {
    assert!(rt; Marks.admits(marks::Operation::Constant as u16, 255, 0));
    assert!(rt; !Marks.admits(marks::Operation::Constant as u16, 256, 0));
    assert!(rt; Marks.admits(marks::Operation::Agreement as u16, 255, 1));
    assert!(rt; !Marks.admits(marks::Operation::Agreement as u16, 256, 1));
    assert!(rt; !Marks.admits(0, 0, 0));
    assert!(rt; !Marks.admits(marks::Operation::Constant as u16, 0, 1));
    assert!(rt; !Marks.admits(marks::Operation::Latest as u16, 0, 0));
    assert!(rt; !Marks.admits(4, 0, 1));
    assert_eq!(rt;
        Marks.start(SITE, marks::Operation::Latest as u16, 255, 1),
        Ok(255)
    );
    assert_eq!(rt;
        Marks.start(SITE, marks::Operation::Latest as u16, 256, 1),
        Err(Refusal::Undefined { site: SITE })
    );
}

#[test]
fn marks_step(rt: HostRuntime) {
    let undefined = Err(Refusal::Undefined { site: SITE });
    assert_eq!(rt;
        Marks.step(SITE, marks::Operation::Latest as u16, 4, 5),
        Ok(5)
    );
    assert_eq!(rt;
        Marks.step(SITE, marks::Operation::Latest as u16, 4, 0),
        Ok(4)
    );
    assert_eq!(rt;
        Marks.step(SITE, marks::Operation::Agreement as u16, 0, 0),
        Ok(0)
    );
    assert_eq!(rt;
        Marks.step(SITE, marks::Operation::Agreement as u16, 0, 5),
        Ok(5)
    );
    assert_eq!(rt;
        Marks.step(SITE, marks::Operation::Agreement as u16, 4, 0),
        Ok(4)
    );
    assert_eq!(rt;
        Marks.step(SITE, marks::Operation::Agreement as u16, 4, 4),
        Ok(4)
    );
    assert_eq!(rt;
        Marks.step(SITE, marks::Operation::Agreement as u16, 4, 5),
        undefined
    );
    assert_eq!(rt;
        Marks.step(SITE, marks::Operation::Constant as u16, 4, 4),
        undefined
    );
    assert_eq!(rt; Marks.step(SITE, 4, 4, 4), undefined);
}

#[test]
fn operations(rt: HostRuntime) -> Result<(), Fail> {
    assert_eq!(rt;
        lengths::Operation::try_from(4)?,
        lengths::Operation::Subtract
    );
    assert_eq!(rt; lengths::Operation::try_from(0), Err(Unlisted(0)));
    assert_eq!(rt; lengths::Operation::try_from(5), Err(Unlisted(5)));
    assert_eq!(rt; marks::Operation::try_from(3)?, marks::Operation::Agreement);
    assert_eq!(rt; marks::Operation::try_from(0), Err(Unlisted(0)));
    assert_eq!(rt; marks::Operation::try_from(4), Err(Unlisted(4)));
    Ok(())
}

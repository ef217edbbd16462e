// Both kinds of plan at their edges.
use super::alternating::Alternating;
use super::written::Written;
use super::{Direction, Plan};
use refusal::{Refusal, Unlisted};
use std::test::Fail;

#[test]
fn alternating_lengths(rt: HostRuntime) -> Result<(), Fail> {
    let refused = Some(Refusal::BadPlan { place: 0 });
    assert_eq!(rt; Alternating::new(Direction::Left, 0).err(), refused);
    assert_eq!(rt; Alternating::new(Direction::Left, 129).err(), refused);
    assert_eq!(rt; Alternating::new(Direction::Left, 257).err(), refused);
    assert_eq!(rt; Alternating::new(Direction::Left, 1)?.passes(), 1);
    assert_eq!(rt; Alternating::new(Direction::Left, 128)?.passes(), 128);
    Ok(())
}

#[test]
fn alternating_directions(rt: HostRuntime) -> Result<(), Fail> {
    let plan = Alternating::new(Direction::Right, 3)?;
    assert_eq!(rt; plan.direction(0), None);
    assert_eq!(rt; plan.direction(1), Some(Direction::Right));
    assert_eq!(rt; plan.direction(2), Some(Direction::Left));
    assert_eq!(rt; plan.direction(3), Some(Direction::Right));
    assert_eq!(rt; plan.direction(4), None);
    assert_eq!(rt; plan.direction(255), None);
    Ok(())
}

#[test]
fn written_lengths(rt: HostRuntime) -> Result<(), Fail> {
    let refused = Some(Refusal::BadPlan { place: 0 });
    let bytes = [b'R'; 129];
    assert_eq!(rt; Written::new(&[]).err(), refused);
    assert_eq!(rt; Written::new(&bytes).err(), refused);
    assert_eq!(rt; Written::new(&bytes[..1])?.passes(), 1);
    let plan = Written::new(&bytes[..128])?;
    assert_eq!(rt; plan.passes(), 128);
    assert_eq!(rt; plan.direction(128), Some(Direction::Right));
    assert_eq!(rt; plan.direction(129), None);
    Ok(())
}

#[test]
fn written_directions(rt: HostRuntime) -> Result<(), Fail> {
    let plan = Written::new(b"LLR")?;
    assert_eq!(rt; plan.direction(0), None);
    assert_eq!(rt; plan.direction(1), Some(Direction::Left));
    assert_eq!(rt; plan.direction(2), Some(Direction::Left));
    assert_eq!(rt; plan.direction(3), Some(Direction::Right));
    assert_eq!(rt; plan.direction(4), None);
    assert_eq!(rt; plan.direction(255), None);
    Ok(())
}

#[test]
fn wrong_letters(rt: HostRuntime) {
    assert_eq!(rt;
        Written::new(b"lRL").err(),
        Some(Refusal::BadPlan { place: 0 })
    );
    assert_eq!(rt;
        Written::new(b"LRXLR").err(),
        Some(Refusal::BadPlan { place: 2 })
    );
    assert_eq!(rt;
        Written::new(b"LR ").err(),
        Some(Refusal::BadPlan { place: 2 })
    );
    assert_eq!(rt;
        Written::new(b"LMRQ").err(),
        Some(Refusal::BadPlan { place: 1 })
    );
}

#[test]
fn letters(rt: HostRuntime) {
    assert_eq!(rt; Direction::try_from(b'L'), Ok(Direction::Left));
    assert_eq!(rt; Direction::try_from(b'R'), Ok(Direction::Right));
    assert_eq!(rt; Direction::try_from(b'l'), Err(Unlisted(108)));
}

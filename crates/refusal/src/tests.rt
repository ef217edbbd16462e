// The printed text of refusals.
use super::{Place, Refusal, Site, Unlisted};
use std::test::Fail;

#[test]
fn places(rt: HostRuntime) -> Result<(), Fail> {
    let site = Site {
        node: 307,
        attribute: 12,
    };
    let at = Place::At(9).to_string(rt.alloc())?;
    assert_eq!(rt; at.as_str(), "9");
    let instance = Place::Instance(site).to_string(rt.alloc())?;
    assert_eq!(rt; instance.as_str(), "attribute 12 of node 307");
    Ok(())
}

#[test]
fn refusals(rt: HostRuntime) -> Result<(), Fail> {
    let site = Site {
        node: 307,
        attribute: 12,
    };
    let at_record = Refusal::NoSuch { record: 9 }.to_string(rt.alloc())?;
    assert_eq!(rt; at_record.as_str(), "refused 5 at 9");
    let at_instance = Refusal::Undefined { site }.to_string(rt.alloc())?;
    assert_eq!(rt;
        at_instance.as_str(),
        "refused 23 at attribute 12 of node 307"
    );
    Ok(())
}

#[test]
fn unlisted(rt: HostRuntime) -> Result<(), Fail> {
    let text = Unlisted(108).to_string(rt.alloc())?;
    assert_eq!(rt; text.as_str(), "nothing is listed under 108");
    Ok(())
}

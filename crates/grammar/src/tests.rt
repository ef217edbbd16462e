// Labels of arcs by their positions, first numbers by kind, kinds by number and as numbers, and copies of directions.
use super::{Attribute, AttributeKind, Directions, SymbolKind, arc_label, unnumbered};
use plans::Direction;
use refusal::Unlisted;

#[test]
fn labels_at_one_position(rt: HostRuntime) {
    assert_eq!(rt; arc_label(0, 0), 1);
    assert_eq!(rt; arc_label(1, 1), 7);
    assert_eq!(rt; arc_label(2, 2), 7);
}

#[test]
fn labels_between_positions(rt: HostRuntime) {
    assert_eq!(rt; arc_label(1, 2), 5);
    assert_eq!(rt; arc_label(2, 1), 3);
    assert_eq!(rt; arc_label(7, 8), 5);
    assert_eq!(rt; arc_label(8, 1), 3);
}

#[test]
fn labels_at_the_left_side(rt: HostRuntime) {
    assert_eq!(rt; arc_label(0, 1), 1);
    assert_eq!(rt; arc_label(0, 8), 1);
    assert_eq!(rt; arc_label(1, 0), 1);
    assert_eq!(rt; arc_label(8, 0), 1);
}

#[test]
fn first_numbers(rt: HostRuntime) {
    let inherited = Attribute {
        symbol: 1,
        kind: AttributeKind::Inherited,
    };
    let given = Attribute {
        symbol: 2,
        kind: AttributeKind::Given,
    };
    let synthesized = Attribute {
        symbol: 3,
        kind: AttributeKind::Synthesized,
    };
    let numbers = unnumbered(&[inherited, given, synthesized, given]);
    assert_eq!(rt; numbers[0], 255);
    assert_eq!(rt; numbers[1], 0);
    assert_eq!(rt; numbers[2], 255);
    assert_eq!(rt; numbers[3], 0);
    assert_eq!(rt; numbers[4], 255);
    assert_eq!(rt; numbers[63], 255);
}

#[test]
fn no_numbers(rt: HostRuntime) {
    let numbers = unnumbered(&[]);
    assert_eq!(rt; numbers[0], 255);
    assert_eq!(rt; numbers[63], 255);
}

#[test]
fn numbers_of_many(rt: HostRuntime) {
    let given = Attribute {
        symbol: 2,
        kind: AttributeKind::Given,
    };
    let attributes = [given; 70];
    let numbers = unnumbered(&attributes);
    assert_eq!(rt; numbers[0], 0);
    assert_eq!(rt; numbers[63], 0);
}

#[test]
fn kinds_by_number(rt: HostRuntime) {
    assert_eq!(rt; SymbolKind::try_from(1), Ok(SymbolKind::Inner));
    assert_eq!(rt; SymbolKind::try_from(3), Err(Unlisted(3)));
    assert_eq!(rt; AttributeKind::try_from(3), Ok(AttributeKind::Given));
    assert_eq!(rt; AttributeKind::try_from(0), Err(Unlisted(0)));
}

#[test]
fn kinds_as_numbers(rt: HostRuntime) {
    assert_eq!(rt; SymbolKind::Inner as u16, 0);
    assert_eq!(rt; SymbolKind::Terminal as u16, 1);
    assert_eq!(rt; AttributeKind::Inherited as u16, 0);
    assert_eq!(rt; AttributeKind::Synthesized as u16, 1);
    assert_eq!(rt; AttributeKind::Given as u16, 2);
}

#[test]
fn directions_are_copied(rt: HostRuntime) {
    let mut directions = Directions::new();
    directions.push(Direction::Right);
    let copy = directions;
    directions.push(Direction::Left);
    assert_eq!(rt; copy.as_slice().len(), 1);
    assert_eq!(rt; directions.as_slice().len(), 2);
}

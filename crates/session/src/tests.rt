use crate::leading::{part_count, second_lines};
use crate::parts::{copy_parts, first_parts, refine};
use circuit::circuit::Circuit;
use circuit::kind::Kind;
use circuit::row::Row;
use level::line_value::LineValue;
use level::three_way::ThreeWay;
use std::test::Fail;

fn input() -> Row {
    Row {
        kind: Some(Kind::Input),
        ..Row::BLANK
    }
}

fn gate(kind: Kind, a: u16, b: u16) -> Row {
    Row {
        kind: Some(kind),
        count: 2,
        pins: [a, b, 0, 0, 0, 0, 0, 0],
        ..Row::BLANK
    }
}

// INPUT(a), INPUT(b), INPUT(c), m = NAND(a, b), k = OR(m, c)
fn example() -> [Row; 5] {
    [
        input(),
        input(),
        input(),
        gate(Kind::Nand, 0, 1),
        gate(Kind::Or, 3, 2),
    ]
}

// The values of the example's lines under a vector.
fn values(vector: &[u8]) -> Result<[ThreeWay; 5], Fail> {
    let rows = example();
    let mut cells = [ThreeWay::make(b'0').ok_or("no 0")?; 5];
    if Circuit::over(&rows).evaluate(vector, &mut cells).is_err() {
        return Err("the vector is refused".into());
    }
    Ok(cells)
}

#[test]
fn vectors_refine_the_parts(rt: HostRuntime) -> Result<(), Fail> {
    let after = refine(&[0, 0, 0, 0, 0], &values(b"110")?);
    assert_eq!(rt; &after[..5], [0, 0, 2, 2, 2].as_slice(), "1 1 0 0 0");
    let after = refine(&[0, 0, 2, 2, 2], &values(b"011")?);
    assert_eq!(rt; &after[..5], [0, 1, 2, 2, 2].as_slice(), "0 1 1 1 1");
    let after = refine(&[0, 0, 0, 0, 0], &values(b"0XX")?);
    assert_eq!(rt; &after[..5], [0, 1, 1, 3, 3].as_slice(), "0 X X 1 1");
    Ok(())
}

#[test]
fn cells_past_the_lines_stay(rt: HostRuntime) {
    let mut cells = [9; 6];
    first_parts(5, &mut cells);
    assert_eq!(rt; cells, [0, 0, 0, 0, 0, 9]);
    copy_parts(&[0, 1, 2, 2, 2], &mut cells);
    assert_eq!(rt; cells, [0, 1, 2, 2, 2, 9]);
}

#[test]
fn parts_have_first_and_second_lines(rt: HostRuntime) {
    assert_eq!(rt; part_count(&[0, 0, 0, 0, 0]), 1);
    assert_eq!(rt; part_count(&[0, 1, 2, 2, 2]), 3);
    let seconds = second_lines(&[0, 1, 2, 2, 2]);
    assert_eq!(rt; &seconds[..5], [None, None, Some(3), None, None].as_slice());
}

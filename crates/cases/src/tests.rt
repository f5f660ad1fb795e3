use circuit::bridge::{Bridge, bridge_at, bridge_number};
use circuit::circuit::Circuit;
use circuit::detection::is_detected;
use circuit::kind::Kind;
use circuit::refusal::CircuitFault;
use circuit::row::Row;
use circuit::vector::{EvaluationFault, VectorFault};
use level::level::Level;
use level::line_value::LineValue;
use level::three_way::ThreeWay;
use level::two_way::TwoWay;
use std::test::Fail;

fn input() -> Row {
    Row {
        kind: Some(Kind::Input),
        ..Row::BLANK
    }
}

fn gate(kind: Kind, a: u16, b: u16) -> Row {
    Row {
        kind: Some(kind),
        count: 2,
        pins: [a, b, 0, 0, 0, 0, 0, 0],
        ..Row::BLANK
    }
}

fn output(row: Row) -> Row {
    Row {
        output: true,
        ..row
    }
}

// INPUT(a), INPUT(b), INPUT(c), m = NAND(a, b), k = OR(m, c), OUTPUT(k), and two blank rows
fn example() -> [Row; 7] {
    [
        input(),
        input(),
        input(),
        gate(Kind::Nand, 0, 1),
        output(gate(Kind::Or, 3, 2)),
        Row::BLANK,
        Row::BLANK,
    ]
}

fn c17() -> [Row; 11] {
    [
        input(),
        input(),
        input(),
        input(),
        input(),
        gate(Kind::Nand, 0, 2),
        gate(Kind::Nand, 2, 3),
        gate(Kind::Nand, 1, 6),
        gate(Kind::Nand, 6, 4),
        output(gate(Kind::Nand, 5, 7)),
        output(gate(Kind::Nand, 7, 8)),
    ]
}

// What the lines 9 and 10 of c17 read.
fn c17_outputs(vector: &[u8]) -> Result<(Level, Level), Fail> {
    let rows = c17();
    let circuit = Circuit::over(&rows);
    let mut cells = [TwoWay::make(b'0').ok_or("no 0")?; 11];
    circuit.evaluate(vector, &mut cells)?;
    Ok((cells[9].read(), cells[10].read()))
}

#[test]
fn c17_reads(rt: HostRuntime) -> Result<(), Fail> {
    assert_eq!(rt; c17_outputs(b"11011")?, (Level::One, Level::One));
    assert_eq!(rt; c17_outputs(b"10000")?, (Level::Zero, Level::Zero));
    assert_eq!(rt; c17_outputs(b"11000")?, (Level::One, Level::One));
    assert_eq!(rt; c17_outputs(b"10011")?, (Level::Zero, Level::One));
    Ok(())
}

#[test]
fn an_undriven_input_reads_x(rt: HostRuntime) -> Result<(), Fail> {
    let rows = example();
    let circuit = Circuit::over(&rows);
    let mut cells = [ThreeWay::make(b'1').ok_or("no 1")?; 6];
    circuit.evaluate(b"00X", &mut cells)?;
    assert_eq!(rt; cells[2].read(), Level::X);
    assert_eq!(rt; cells[3].read(), Level::One);
    assert_eq!(rt; cells[4].read(), Level::One);
    assert_eq!(rt;
        cells[5].read(),
        Level::One,
        "the cell past the last line stays"
    );
    Ok(())
}

#[test]
fn evaluation_refuses(rt: HostRuntime) -> Result<(), Fail> {
    let rows = example();
    let circuit = Circuit::over(&rows);
    let zero = TwoWay::make(b'0').ok_or("no 0")?;
    let mut four = [zero; 4];
    assert_eq!(rt;
        circuit.evaluate(b"11", &mut four),
        Err(EvaluationFault::TooFewCells)
    );
    let mut five = [zero; 5];
    let short = Err(EvaluationFault::Vector(VectorFault::Length { length: 2 }));
    assert_eq!(rt; circuit.evaluate(b"1X", &mut five), short);
    let undriven = Err(EvaluationFault::Vector(VectorFault::Byte { index: 2 }));
    assert_eq!(rt; circuit.evaluate(b"11X", &mut five), undriven);
    Ok(())
}

#[test]
fn the_circuit_answers(rt: HostRuntime) {
    let rows = example();
    let circuit = Circuit::over(&rows);
    assert_eq!(rt; (circuit.lines(), circuit.inputs()), (5, 3));
    assert_eq!(rt; (circuit.outputs(), circuit.bridges()), (1, 10));
    assert_eq!(rt; circuit.feedback_bridges(), 6);
    assert_eq!(rt; circuit.is_output(4), Ok(true));
    assert_eq!(rt; circuit.is_output(5), Err(CircuitFault::NoLine { line: 5 }));
    assert_eq!(rt;
        circuit.is_feedback(1),
        Ok(false),
        "a and c lead to one gate"
    );
    assert_eq!(rt; circuit.is_feedback(3), Ok(true), "a, m, k");
    assert_eq!(rt;
        circuit.is_feedback(10),
        Err(CircuitFault::NoBridge { bridge: 10 })
    );
}

#[test]
fn bridges_have_numbers(rt: HostRuntime) {
    assert_eq!(rt; bridge_number(5, Bridge { low: 2, high: 3 }), Some(7));
    assert_eq!(rt; bridge_at(5, 7), Some(Bridge { low: 2, high: 3 }));
    assert_eq!(rt; bridge_at(5, 10), None);
    assert_eq!(rt; bridge_number(5, Bridge { low: 3, high: 3 }), None);
    assert_eq!(rt;
        bridge_number(
            1024,
            Bridge {
                low: 1022,
                high: 1023,
            },
        ),
        Some(523_775)
    );
    assert_eq!(rt;
        bridge_at(1024, 523_775),
        Some(Bridge {
            low: 1022,
            high: 1023,
        })
    );
    assert_eq!(rt; bridge_number(1025, Bridge { low: 0, high: 1 }), None);
}

#[test]
fn a_bridge_is_detected(rt: HostRuntime) -> Result<(), Fail> {
    let rows = example();
    let circuit = Circuit::over(&rows);
    let mut cells = [ThreeWay::make(b'0').ok_or("no 0")?; 5];
    circuit.evaluate(b"00X", &mut cells)?;
    assert_eq!(rt; is_detected(Bridge { low: 0, high: 3 }, &cells), Some(true));
    assert_eq!(rt;
        is_detected(Bridge { low: 2, high: 3 }, &cells),
        Some(false),
        "X against 1"
    );
    assert_eq!(rt;
        is_detected(Bridge { low: 3, high: 4 }, &cells),
        Some(false)
    );
    assert_eq!(rt; is_detected(Bridge { low: 3, high: 5 }, &cells), None);
    Ok(())
}

#[test]
fn unlawful_rows_give_no_lines(rt: HostRuntime) {
    let mut rows = example();
    rows[6] = input();
    assert_eq!(rt; Circuit::over(&rows).lines(), 0, "a row after a blank one");
    rows[6] = Row::BLANK;
    rows[4] = gate(Kind::Or, 4, 2);
    assert_eq!(rt;
        Circuit::over(&rows).lines(),
        0,
        "a gate that has itself as a pin"
    );
    rows[4] = Row {
        count: 1,
        ..gate(Kind::Or, 3, 0)
    };
    assert_eq!(rt; Circuit::over(&rows).lines(), 0, "an OR of one pin");
    rows[4] = Row {
        count: 1,
        ..gate(Kind::Buff, 3, 900)
    };
    assert_eq!(rt; Circuit::over(&rows).lines(), 5, "an unused pin");
}

// Heads in piles of adaptors, measured: one of a lab's own, a sheet, and planted bridges.

#![tactic(auto)]

use anyhow::Context;
use circuit::circuit::Circuit;
use circuit::kind::Kind;
use circuit::refusal::Refusal;
use circuit::row::Row;
use head::fault::HeadFault;
use head::head::Head;
use head::pin_map::PinMap;
use head::planted::Planted;
use head::reading::Reading;
use head::reverser::Reverser;
use head::sheet::Sheet;
use level::line_value::LineValue;
use level::two_way::TwoWay;
use probe::Probe;
use std::io;

mod probe;

fn refuse(rt: &impl Print, title: &str, fault: HeadFault) -> io::Result<()> {
    let refusal = Refusal::from(fault);
    println!(rt; "{title}: {refusal}")
}

fn show(rt: &impl Print, title: &str, outcome: Result<Reading, HeadFault>) -> io::Result<()> {
    match outcome {
        Ok(reading) => println!(rt; "{title}: {reading}"),
        Err(fault) => refuse(rt, title, fault),
    }
}

fn show_pile(rt: &impl Print, title: &str, pile: &mut impl Head) -> io::Result<()> {
    let width = pile.width();
    let adaptors = pile.adaptors();
    println!(rt; "{title}: width {width} adaptors {adaptors}")?;
    show(rt, "101", pile.measure(b"101"))?;
    show(rt, "011", pile.measure(b"011"))?;
    show(rt, "000", pile.measure(b"000"))?;
    show(rt, "1X1", pile.measure(b"1X1"))?;
    show(rt, "10", pile.measure(b"10"))
}

fn show_set<H: Head>(
    rt: &impl Print,
    title: &str,
    pile: &mut PinMap<H>,
    map: &[u16],
) -> io::Result<()> {
    match pile.set(map) {
        Ok(()) => println!(rt; "{title}: set"),
        Err(fault) => refuse(rt, title, fault),
    }
}

// A pin map over a reverser over a sheet.
fn show_crossing(rt: &impl Print) -> io::Result<()> {
    let sheet = Sheet::new(3, b"110H011Z011L110L01");
    let mut pile = PinMap::over(Reverser::over(sheet));
    show_pile(rt, "sheet under two adaptors", &mut pile)?;
    show_set(rt, "2 0 1", &mut pile, &[2, 0, 1])?;
    show_pile(rt, "crossed", &mut pile)?;
    show_set(rt, "0 3 3", &mut pile, &[0, 3, 3])?;
    show_set(rt, "2 0 2", &mut pile, &[2, 0, 2])?;
    show_set(rt, "0 1", &mut pile, &[0, 1])?;
    show_set(rt, "0 1 2 0", &mut pile, &[0, 1, 2, 0])?;
    show_pile(rt, "still crossed", &mut pile)?;
    show_set(rt, "0 1 2", &mut pile, &[0, 1, 2])?;
    show_pile(rt, "straight", &mut pile)
}

fn gate(kind: Kind, a: u16, b: u16) -> Row {
    Row {
        kind: Some(kind),
        count: 2,
        pins: [a, b, 0, 0, 0, 0, 0, 0],
        ..Row::BLANK
    }
}

// INPUT(a), INPUT(b), INPUT(c), m = NAND(a, b), k = OR(m, c)
fn example() -> [Row; 5] {
    let input = Row {
        kind: Some(Kind::Input),
        ..Row::BLANK
    };
    [
        input,
        input,
        input,
        gate(Kind::Nand, 0, 1),
        gate(Kind::Or, 3, 2),
    ]
}

fn show_planted(
    rt: &impl Print,
    title: &str,
    bridge: usize,
    cells: &mut [TwoWay],
) -> io::Result<()> {
    let rows = example();
    let mut head = Planted::new(Circuit::over(&rows), bridge, cells);
    show_pile(rt, title, &mut head)?;
    let lines = head.close().lines();
    println!(rt; "{title}: closed, lines {lines}")
}

fn main(rt: HostRuntime) -> anyhow::Result<()> {
    show_pile(&rt, "probe", &mut Probe::new(3, 2))?;
    show_pile(&rt, "reversed", &mut Reverser::over(Probe::new(3, 2)))?;
    show_pile(
        &rt,
        "reversed twice",
        &mut Reverser::over(Reverser::over(Probe::new(3, 2))),
    )?;
    show_crossing(&rt)?;
    let mut cells = [TwoWay::make(b'0').context("no 0")?; 5];
    show_planted(&rt, "bridge 7", 7, &mut cells)?;
    show_planted(&rt, "bridge 10", 10, &mut cells)?;
    show_planted(&rt, "bridge 7, four cells", 7, &mut cells[0..4])?;
    Ok(())
}

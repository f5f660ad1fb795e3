ghost use Rattle.std.specs.Prelude.{◌≡◌, ℕ, ◌<◌, ◌≤◌, List, length, take, drop, replicate, slice_index};
ghost use Rattle.head.specs.Crossing.{scattered, crossing, bad, bad_place, setting, Judged, Stored, raised_result, AskedCrossed};
ghost use Rattle.head.specs.Meaning.{Lawful, measured};

use crate::binary::check_binary;
use crate::fault::{HeadFault, one_more};
use crate::head::Head;
use crate::reading::Reading;
use std::array;

// Crosses pins: byte i of a vector goes to the pin of the head below that entry i names. There is no heap,
// so the map has room for the widest head; the width below says how much of it counts.
#[derive(Drop)]
pub struct PinMap<H> {
    below: H,
    map: [u8; 256],
}

// Each byte of the vector at the pin that its entry names.
fn scatter(map: &[u8], vector: &[u8]) -> [u8; 256]
    ensures { result ≡ scattered map.now vector.now (replicate 256 0) }
{
    let mut cells = [0; 256];
    for (pin, byte) in map.iter().zip(vector) {
        cells[usize::from(*pin)] = *byte;
    }
    cells
}

// Whether entry `at` names no pin, or one that an earlier entry names.
fn is_bad(map: &[u16], at: usize, width: usize) -> bool
    requires { at < length map.now }
    ensures { result ≡ bad width map.now at }
{
    usize::from(map[at]) >= width || map[..at].contains(&map[at])
}

fn first_bad(map: &[u16], width: usize) -> Option<usize>
    ensures { result ≡ bad_place width map.now }
{
    (0..map.len()).find(|at| is_bad(map, *at, width))
}

// Refuses a map that does not name each of the pins once.
fn judge(map: &[u16], width: usize) -> Result<(), HeadFault>
    ensures outcome { result ≡ setting width map.now }
    ensures judged { Judged width map.now result }
{
    match first_bad(map, width) {
        Some(place) => Err(HeadFault::NotPermutation { place }),
        None if map.len() != width => Err(HeadFault::NotPermutation { place: map.len() }),
        None => Ok(()),
    }
}

// Copies the entries over the first cells.
fn store(cells: &mut [u8], map: &[u16])
    requires room { length map.now ≤ length cells.old }
    requires small { (k : ℕ) → k < length map.now → slice_index map.now k < 256 }
    ensures front { take (length map.now) cells.new ≡ map.now }
    ensures rest { drop (length map.now) cells.new ≡ drop (length map.now) cells.old }
{
    for (at, pin) in map.iter().enumerate() {
        cells[at] = *pin as u8;
    }
}

fn straight() -> [u8; 256]
    ensures long { length result ≡ 256 }
    ensures own { (k : ℕ) → k < 256 → slice_index result k ≡ k }
{
    array::from_fn(|pin| pin as u8)
}

impl<H: Head> PinMap<H> {
    // Begins with each byte at its own pin.
    #[tactic(auto, using(crate::proofs::Pins::first_standing))]
    pub fn over(below: H) -> PinMap<H>
        ensures kept { result.below ≡ below }
        ensures straight { (k : ℕ) → k < 256 → slice_index result.map k ≡ k }
        ensures same { Lawful (H.Head.meaning below) → (v : List ℕ) → length v ≡ (H.Head.meaning below).width → (⟦<PinMap<H> as Head>⟧.meaning result).standing v ≡ (H.Head.meaning below).standing v }
    {
        PinMap {
            below,
            map: straight(),
        }
    }

    // Takes the adaptor off the head.
    pub fn into_below(self) -> H
        ensures { result ≡ self.below }
    {
        let PinMap { below, map: _ } = self;
        below
    }

    // Takes a pin map that names each pin of the head below once, and refuses another at its first bad entry.
    pub fn set(&mut self, map: &[u16]) -> Result<(), HeadFault>
        ensures outcome { result ≡ setting (H.Head.meaning self.old.below).width map.now }
        ensures judged { Judged (H.Head.meaning self.old.below).width map.now result }
        ensures kept { self.new.below ≡ self.old.below }
        ensures stored { Stored (H.Head.meaning self.old.below).width map.now self.old.map self.new.map result }
    {
        judge(map, self.below.width())?;
        store(&mut self.map, map);
        Ok(())
    }

    // Asks the head below with the vector crossed, if it may be asked; the fault is that of the head below.
    fn ask(&mut self, vector: &[u8]) -> Result<Reading, HeadFault>
        ensures outcome { raised_result result ≡ measured (crossing self.old.map (H.Head.meaning self.old.below)) vector.now }
        ensures same { H.Head.meaning self.new.below ≡ H.Head.meaning self.old.below }
        ensures kept { self.new.map ≡ self.old.map }
        ensures once { AskedCrossed H.Head.asked (H.Head.meaning self.old.below) self.old.map self.old.below vector.now (raised_result result) self.new.below }
    {
        let width = self.below.width();
        check_binary(vector, width, self.below.adaptors())?;
        let cells = scatter(&self.map, vector);
        self.below.measure(&cells[..width])
    }
}

impl<H: Head> Head for PinMap<H> {
    ghost meaning = { λ s. crossing s.map (H.Head.meaning s.below) };

    ghost asked = { λ s v r t. (t.map ≡ s.map) × AskedCrossed H.Head.asked (H.Head.meaning s.below) s.map s.below v r t.below };

    fn width(&self) -> usize {
        self.below.width()
    }

    fn adaptors(&self) -> u8 {
        one_more(self.below.adaptors())
    }

    fn measure(&mut self, vector: &[u8]) -> Result<Reading, HeadFault> {
        self.ask(vector).map_err(HeadFault::under_adaptor)
    }
}

ghost use Rattle.head.specs.Meaning.{Meaning, reversed, turned_result};
ghost use Rattle.head.specs.Asking.{Through};
ghost use Rattle.head.specs.Stands.{Undone};
ghost use Rattle.std.specs.Prelude.{◌≡◌};

use crate::fault::{HeadFault, one_more};
use crate::head::Head;
use crate::reading::Reading;
use std::marker::Model;

// Swaps high and low of the head below.
#[derive(Drop)]
pub struct Reverser<H> {
    below: H,
}

impl<H> Model for Reverser<H> {
    ghost Value = { H };

    ghost view = { λ s. s.below };
}

impl<H> Reverser<H> {
    pub fn over(below: H) -> Reverser<H>
        ensures below { result ≡ below }
        ensures undone { (m : Meaning) → Undone m }
    {
        Reverser { below }
    }

    // Takes the adaptor off the head.
    pub fn into_below(self) -> H
        ensures { result ≡ self }
    {
        let Reverser { below } = self;
        below
    }
}

impl<H: Head> Head for Reverser<H> {
    ghost meaning = { λ s. reversed (H.Head.meaning s) };

    ghost asked = { λ s v r t. Through H.Head.asked turned_result s v r t };

    fn width(&self) -> usize {
        self.below.width()
    }

    fn adaptors(&self) -> u8 {
        one_more(self.below.adaptors())
    }

    fn measure(&mut self, vector: &[u8]) -> Result<Reading, HeadFault> {
        self.below
            .measure(vector)
            .map(|reading| !reading)
            .map_err(HeadFault::under_adaptor)
    }
}

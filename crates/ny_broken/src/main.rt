//! Checks 2,000 texts that were made from pieces by changing, removing and doubling bytes, and a
//! piece cut at each of its bytes. It prints what each answers: its canonical text, by its length
//! and checksum, or the line of a refusal.
#![tactic(auto)]

mod answer;
mod breaks;

use crate::answer::answer;
use crate::breaks::{Draws, broken};
use std::rt::Files;
use std::{fs, io};

/// The seed of the first text of each piece.
const SEED: u32 = 1;

/// How many texts are made of a piece.
const TEXTS: u32 = 500;

/// Checks texts that are a piece with a few breaks each.
fn check_broken<R: Files + Print + AllocGlobal>(rt: &R, piece: &str) -> io::Result<()> {
    let text = fs::read(rt, piece)?;
    let mut draws = Draws::of(SEED);
    for number in 1..=TEXTS {
        let text = broken(rt.alloc(), &text, &mut draws)?;
        print!(rt; "{piece} {number}: ")?;
        rt.write_all(&answer(rt.alloc(), text)?)?;
    }
    Ok(())
}

/// Checks all first parts of a piece.
fn check_cuts<R: Files + Print + AllocGlobal>(rt: &R, piece: &str) -> io::Result<()> {
    let text = fs::read(rt, piece)?;
    for len in 0..=text.len() {
        let part = Vec::from_slice(rt.alloc(), &text[..len])?;
        print!(rt; "{piece} to {len}: ")?;
        rt.write_all(&answer(rt.alloc(), part)?)?;
    }
    Ok(())
}

fn main(rt: HostRuntime) -> io::Result<()> {
    for piece in ["first.sal", "chord.sal", "shore.sal", "several-lines.sal"] {
        check_broken(&rt, piece)?;
    }
    check_cuts(&rt, "echoes.sal")
}

// How the programs that run the calls print: words, numbers and refusals.
#![tactic(auto)]

use rules::Refusal;
use std::io;

pub fn say(rt: &impl Print, text: &[u8]) -> io::Result<()> {
    rt.write_all(text)
}

// A number, after a space.
pub fn show(rt: &impl Print, n: u64) -> io::Result<()> {
    print!(rt; " {n}")
}

// The number of a refusal, and layer and row of its place.
fn show_row(rt: &impl Print, k: u8, layer: usize, row: usize) -> io::Result<()> {
    show(rt, k as u64)?;
    show(rt, layer as u64)?;
    show(rt, row as u64)
}

// A refusal: its number, and its place where it has one.
pub fn show_refusal(rt: &impl Print, r: Refusal) -> io::Result<()> {
    match r {
        Refusal::Number(k) => show(rt, k as u64),
        Refusal::InRow(k, at) => show_row(rt, k, at.layer, at.row),
        Refusal::AtPixel(k, at) => {
            show_row(rt, k, at.layer, at.row)?;
            show(rt, at.column as u64)
        }
    }
}

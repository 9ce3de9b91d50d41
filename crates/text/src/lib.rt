// Texts in lent slices: numbers in decimal, and listings.
#![tactic(auto)]

mod lines;
mod lister;
pub mod listing;
pub mod put;
mod row;
mod write;

// A part of a listing: whole lines in the first `length` cells. The lines behind them are those from the cursor `next` on.
#[derive(Clone, Copy)]
pub struct Part {
    pub length: usize,
    pub next: usize,
}

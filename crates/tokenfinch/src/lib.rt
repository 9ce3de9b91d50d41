// What C and Rust link: each function that include/tokenfinch.h declares, with the promise of the library's function that it
// calls. A library exports nothing, and no crate can stand on what exports, so these stand by themselves.
#![tactic(auto)]

mod building;
mod rules;

//! What all rows are answered: those of the whole program and of its ends here, those of its parts by `vx_part_rows`, those of certificates by `cs_rows`, and the
//! script behind them by `cs_rows`. `docs/ROWS.md` tells what a row is made of.
#![tactic(auto)]

mod all;
mod answers;
mod ends;
mod lanes;

pub use all::answers_of;

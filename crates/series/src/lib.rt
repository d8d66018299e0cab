// A formula as a value: its rows, the terms of a row and their sums.
#![tactic(auto)]

pub mod formula;
pub mod groups;
pub mod halves;
pub mod place;
pub mod squarings;
pub mod store;
pub mod terms;
pub mod workable;

// The formulas that the engine works by. `formula_of` of the specifications says what each stands for.
#[derive(Clone, Copy)]
pub enum Series {
    Bellard,
    Check,
}

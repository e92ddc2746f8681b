//! The core of eight stages.
//!
//! | Stage | What it holds | What a tick does there |
//! |---|---|---|
//! | IF | the words from pc on that were fetched ahead | fetches the next word |
//! | OF | the instruction at pc | reads its operands: from the youngest result in flight, else from the register file |
//! | EX | what is computed | a sum or a branch is decided; a divide takes 33 ticks more |
//! | M0 | the act | reaches memory and ports |
//! | M1 to M3 | the results of the three acts before | ends a multiplication or a shift in M2, a load in M3 |
//! | WB | the result before those | writes it to the register file |
//!
//! The first act comes in tick 3. A result is in flight for five ticks, and forwarded to EX; what is multiplied or shifted by
//! the barrel shifter can be used four ticks after its act, what is loaded five. A taken branch is decided in EX: the act at
//! its target comes three ticks later. What is known in M0 alone, a take, a raise and a store into one of the words ahead,
//! costs a tick more (UG984, "Eight Stage Pipeline"). `docs/PIPELINES.md` has the picture.
#![tactic(auto)]

use pipe_latch::StagedCore;

/// A core of eight stages.
pub type EightCore = StagedCore<8>;

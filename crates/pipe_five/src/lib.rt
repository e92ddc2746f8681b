//! The core of five stages.
//!
//! | Stage | What it holds | What a tick does there |
//! |---|---|---|
//! | IF | the words from pc on that were fetched ahead | fetches the next word |
//! | OF | the instruction at pc | reads its operands: from the youngest result in flight, else from the register file |
//! | EX | what is computed | a sum or a branch is decided; a divide takes 33 ticks more |
//! | MEM | the act | reaches memory and ports; ends a multiplication or a shift |
//! | WB | the result of the act before | writes it to the register file |
//!
//! The first act comes in tick 3. A result is in flight for two ticks, and forwarded to EX; what is loaded, multiplied or
//! shifted by the barrel shifter can be used two ticks after its act. A taken branch is decided in EX: the act at its target
//! comes three ticks later. What is known in MEM alone, a take, a raise and a store into one of the words ahead, costs a
//! tick more (UG984, "Five Stage Pipeline"). `docs/PIPELINES.md` has the picture.
#![tactic(auto)]

use pipe_latch::StagedCore;

/// A core of five stages.
pub type FiveCore = StagedCore<5>;

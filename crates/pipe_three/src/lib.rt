//! The core of three stages.
//!
//! | Stage | What it holds | What a tick does there |
//! |---|---|---|
//! | IF | the words from pc on that were fetched ahead | fetches the next word |
//! | OF | the instruction at pc | reads its operands: from the result in flight, else from the register file |
//! | EX | the act, and its result for a tick more | does the act; a load or a store takes two ticks, a divide 34 |
//!
//! The first act comes in tick 2. A result is in flight for one tick, so that the next instruction gets it forwarded; what
//! is loaded, multiplied or shifted by the barrel shifter can be used two ticks after its act. What leads elsewhere, and a
//! store into one of the words ahead, empties IF and OF: the next act comes three ticks later (UG984, "Three Stage
//! Pipeline"). `docs/PIPELINES.md` has the picture.
#![tactic(auto)]

use pipe_latch::StagedCore;

/// A core of three stages.
pub type ThreeCore = StagedCore<3>;

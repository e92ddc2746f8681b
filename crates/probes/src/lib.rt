//! The four probes of the program: one type for all kinds, and the set with their names.
//!
//! A `FoldProbe` is a probe of any kind, whose state moves by the kind's own step. `stock_probes` attaches four under the
//! names `count`, `trace`, `watch` and `cover`, in this order. The boxes are the caller's, since a library that made them
//! would hide what they hold.
//!
//! ```text
//! let mut probes = stock_probes(
//!     alloc,
//!     Box::new(alloc, FoldProbe::new(ProbeKind::Count))?,
//!     Box::new(alloc, FoldProbe::new(ProbeKind::Trace))?,
//!     Box::new(alloc, FoldProbe::new(ProbeKind::Watch))?,
//!     Box::new(alloc, FoldProbe::new(ProbeKind::Cover))?,
//! )?;
//! let stop = probes.tell(&entry);
//! ```
#![tactic(auto)]

mod fold_probe;
mod stock;
#[cfg(test)]
mod tests;

pub use fold_probe::FoldProbe;
pub use stock::stock_probes;

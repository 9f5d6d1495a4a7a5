//! Tests of the adapters over the real outside, whose contracts say what their calls count and not what they move: files of
//! the system, a source over a reader and a sink over a writer.
#![tactic(auto)]

#[cfg(test)]
mod tests;

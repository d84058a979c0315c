//! Tests of the inference rules by the public calls of a proof: the sequent that each rule makes of its premises, what
//! it refuses and in which order, and what a proof keeps. A case is data: `turns` says what can stand in it, and `terms` how a term is
//! written.
#![tactic(auto)]

#[cfg(test)]
mod bench;
#[cfg(test)]
mod cases;
#[cfg(test)]
mod definitions;
#[cfg(test)]
mod equations;
#[cfg(test)]
mod functions;
#[cfg(test)]
mod hypotheses;
#[cfg(test)]
mod limits;
#[cfg(test)]
mod stating;
#[cfg(test)]
mod steps;
#[cfg(test)]
mod substitution;
#[cfg(test)]
mod terms;
#[cfg(test)]
mod turns;

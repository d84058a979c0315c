//! Tests of the stack machine by its public calls: every command, the kind and the line of each refusal, assumptions that
//! exports meet, what is held while much is given up, and the limits.
#![tactic(auto)]

#[cfg(test)]
mod articles;
#[cfg(test)]
mod bench;
#[cfg(test)]
mod cases;
#[cfg(test)]
mod collecting;
#[cfg(test)]
mod definitions;
#[cfg(test)]
mod inference;
#[cfg(test)]
mod limits;
#[cfg(test)]
mod refusals;
#[cfg(test)]
mod stating;
#[cfg(test)]
mod symbols;
#[cfg(test)]
mod trials;

//! Tests of the crates below, one file a crate. A crate that has tests is proved twice, so the base crates have none of their own:
//! what they promise is proved there, and here each public function runs once on its happy path, beside outside vectors and plain
//! lists.
#![tactic(auto)]

#[cfg(test)]
mod generator;
#[cfg(test)]
mod links;
#[cfg(test)]
mod machine;
#[cfg(test)]
mod numbers;
#[cfg(test)]
mod ready;
#[cfg(test)]
mod senders;
#[cfg(test)]
mod words;
#[cfg(test)]
mod writer;

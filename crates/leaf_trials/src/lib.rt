//! Tests of layouts, labels, usages, barriers and bindings at the edges of their ranges.
#![tactic(auto)]

#[cfg(test)]
mod differences;
#[cfg(test)]
mod edges;
#[cfg(test)]
mod labelling;
#[cfg(test)]
mod laws;
#[cfg(test)]
mod laying;
#[cfg(test)]
mod plots;
#[cfg(test)]
mod table;
#[cfg(test)]
mod usages;

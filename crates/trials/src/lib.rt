//! Tests of many cases.
#![tactic(auto)]

#[cfg(test)]
mod damaged;
mod encoding;
#[cfg(test)]
mod long_lists;
#[cfg(test)]
mod plain;
#[cfg(test)]
mod plot_parts;
#[cfg(test)]
mod recorders;

//! Terms and guards with their values, their weights or the first rules that they break.
#![tactic(auto)]

#[cfg(test)]
mod guards;
#[cfg(test)]
mod marks;
#[cfg(test)]
mod ranges;
#[cfg(test)]
mod rows;
#[cfg(test)]
mod steps;
#[cfg(test)]
mod terms;

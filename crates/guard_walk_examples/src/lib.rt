//! Guards of equalities and others, and the numbers of the bindings under which they are true.
#![tactic(auto)]

#[cfg(test)]
mod guards;
#[cfg(test)]
mod walked;
#[cfg(test)]
mod walks;

// Tests of the book, in a crate of their own. Each writes out its own desk and calls, so that it can be read by itself; the worked line
// stands in the tests of `submission` too, which cannot be imported.
#![tactic(auto)]

#[cfg(test)]
mod asking;
#[cfg(test)]
mod proposals;
#[cfg(test)]
mod rules;
#[cfg(test)]
mod runs;
#[cfg(test)]
mod settlements;

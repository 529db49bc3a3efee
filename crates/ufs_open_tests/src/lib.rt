//! Tests of opening, loading and checking an image: what no clause says, and the causes of worked images, in use too.
#![tactic(auto)]

#[cfg(test)]
mod asserts;
#[cfg(test)]
mod causes;
#[cfg(test)]
mod damaged;
#[cfg(test)]
mod deep;
#[cfg(test)]
mod folded;
#[cfg(test)]
mod images;
#[cfg(test)]
mod kinds;
#[cfg(test)]
mod loads;

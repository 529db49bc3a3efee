//! Tests of rings and posts: letters, requests and answers with the hands of their clients, and hands alone, on one thread and between
//! two.
#![tactic(auto)]

#[cfg(test)]
mod asserts;
#[cfg(test)]
mod calls;
#[cfg(test)]
mod ends;
#[cfg(test)]
mod full;
#[cfg(test)]
mod hands;
#[cfg(test)]
mod letters;
#[cfg(test)]
mod rounds;
#[cfg(test)]
mod served;
#[cfg(test)]
mod steps;
#[cfg(test)]
mod stores;
#[cfg(test)]
mod threads;

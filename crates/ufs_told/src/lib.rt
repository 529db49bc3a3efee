//! Words and lemmas of sessions, whoever serves in them: with which tree one may begin, and what replies tell of the faults of a
//! store's disk. There is no code here.
#![tactic(auto)]

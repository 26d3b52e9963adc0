// Big-endian numbers in lent bytes: the test for room, sums of bytes, readers and writers.
#![tactic(auto)]

pub mod number;

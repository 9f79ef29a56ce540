// The machine in words of a caller's: word k is the field with number k, and word 8E the level.
#![tactic(auto)]

pub mod decode; // decode.rt: settings and values from the words
pub mod keep; // keep.rt: values to the words
pub mod untyped; // untyped.rt: the words that no record by value can have

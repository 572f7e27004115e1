// The check of an image up to its form: tests 1 to 5.
#![tactic(auto)]

pub mod buffer;
pub mod checked;
pub mod children;
pub mod depth;
pub mod form;
pub mod linking;
pub mod patterns;
pub mod sorts;
pub mod words;

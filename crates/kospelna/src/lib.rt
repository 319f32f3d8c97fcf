// The face for programs in C: flat structs by value, numbers for what is an enum inside. Each
// function's promise is the definition that it stands for, through the translation. The crate
// kospelna_c exports the functions under their names, and include/kospelna.h declares them.
#![tactic(auto)]

pub mod answers;
pub mod figures;
pub mod frames;
pub mod group;
pub mod identify;
pub mod receive;
pub mod send;
pub mod talk;

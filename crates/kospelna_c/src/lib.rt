// The exports of libkospelna.a: each is the function of that name in the crate kospelna, with its
// promise. include/kospelna.h declares them.
#![tactic(auto)]

mod figures;
mod group;
mod identify;
mod receive;
mod send;
mod talk;

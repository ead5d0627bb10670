//! What a solid is, and what each call does to it, over plain data: `specs/`, in the order of its
//! `Lib.antt`. There is no running code.
#![tactic(auto)]

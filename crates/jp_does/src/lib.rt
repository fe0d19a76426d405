//! What an evaluation does, whoever carries it out, and the open trace of one that stands alone.
#![tactic(auto)]

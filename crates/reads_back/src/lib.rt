//! That the steps which are read off the words of a source's chunk are its statements.
#![tactic(auto)]

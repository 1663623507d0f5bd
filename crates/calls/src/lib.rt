// The calls that begin an operation. Definitions only.
#![tactic(auto)]

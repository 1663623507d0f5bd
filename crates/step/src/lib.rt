// One device step of the pending operation. Definitions only.
#![tactic(auto)]

// Recovery. Definitions only.
#![tactic(auto)]

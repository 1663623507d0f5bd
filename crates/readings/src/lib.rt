// What a reading of the journal answers. Definitions only.
#![tactic(auto)]

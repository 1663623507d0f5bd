// The user's archive: definitions and theorems.
#![tactic(auto)]

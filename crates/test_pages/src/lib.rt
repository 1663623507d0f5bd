// 01's test pages and test media, the lines marked P: one table, shown of the definitions. No code.
#![tactic(auto)]

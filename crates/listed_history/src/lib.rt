// What `morning` prints of a medium reached is what the plain history holds; 01's example, from the bytes. No code.
#![tactic(auto)]

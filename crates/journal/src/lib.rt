// The journal as a program runs it: the chain from the promises of the code to point 3. No code.
#![tactic(auto)]

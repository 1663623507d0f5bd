// What a recorded run prints is what the plain history of its calls defines. No code.
#![tactic(auto)]

// Bits that fade: what recovery gives of a medium that was reached and some of whose bits have since turned from 0 to 1. No code.
#![tactic(auto)]

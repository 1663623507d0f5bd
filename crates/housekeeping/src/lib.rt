// How few operations the dispatcher names until a group that met 13 is let in. No code.
#![tactic(auto)]

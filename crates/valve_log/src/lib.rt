// The valve log: point 3 as one theorem about every list of calls and power cuts. No code.
#![tactic(auto)]

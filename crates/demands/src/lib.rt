// No functions: the owner's three demands, and what else is promised of the calls, as laws of what the calls answer and leave in the lent buffers.
#![tactic(auto)]

// The walk along a reference on the octets, as a definition (`Trail`) with its laws: what refusal 7 speaks of. Nothing here is run.
#![tactic(auto)]

// What the calls on sparse sets mean for the plain set of held values, and that a saved state can be restored: in proofs/, there is no code here.
// Held: a set holds the values of its first cells, each once, between true bounds. Drops, Pairs, Made: what each call holds after it.
// Restores: a restored state has exactly the saved members. Accident: a state that fits by accident after a union. Theorems: each call on a well-formed
// set, seen through the plain set.
#![tactic(auto)]

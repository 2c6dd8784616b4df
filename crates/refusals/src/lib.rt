// The table of refusals, call by call. There is no code here: specs/ lists every call of bit domains, sparse sets and the board, and says for
// each, in 01's order, by which refusals it is refused and when; proofs/ says that each call's definition is refused just so, and that a
// refused call hands back all that it was given.
#![tactic(auto)]

// What the calls on sparse sets mean for the order of values: in proofs/, there is no code here.
// specs/Order: how plain lists change as a value is taken out or brought in. specs/Walk: what a cursor yields until it ends, and the values that are not held.
// Theorems: what each call leaves of the order of the held values, and of the others. Past: that no call writes a cell past n. The rest are the laws behind them.
#![tactic(auto)]

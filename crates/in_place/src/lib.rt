// A call through a reference to a struct, proved once for any callee. There is no code here: the laws are in proofs/.
//
// The prover follows such a call by itself, at each function anew. Here a proof goes through the code by hand, statement by statement, over the
// callee's name and its contract, the types, and the number of further parameters. A function of one of the two forms is an instance, as those of
// `domain_in_place` and `board_in_place` are (`proofs/F/Answers/Instance.antt` there).
//
// Thin: `fn call(d: &mut T, x: .., y: ..) -> O { let r = callee(*d, x, y); *d = r.state; r.answer }`
// Here: `fn call_here(d: T, x: .., y: ..) -> R { let mut e = d; let a = call(&mut e, x, y); R { state: e, answer: a } }`, the same by value, for callers that
// hold no reference
// PlainData, Parameters, Contracts: what the two take of a type, of the further parameters, and of a contract
#![tactic(auto)]

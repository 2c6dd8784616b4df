// The eleven worked cases of 01. There is no code here: specs/Worked.antt is the table, each case in the words of the calls'
// definitions, and proofs/Worked.antt has its one proof.
// proofs/Sentences.antt: what 01 says of some calls in a sentence, as laws.
#![tactic(auto)]

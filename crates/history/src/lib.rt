// The history of an account (document 02, request 3): what holds after any messages from empty. The
// statement is in specs/History.antt, its laws and proof in proofs/HistoryLaws.antt.
#![tactic(auto)]

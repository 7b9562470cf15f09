// The chosen cell: what it is, by document 01's words and as a computation, with its laws. Definitions and
// laws only, in specs/Chosen.antt, specs/InExtents.antt and proofs/; what a search for it answers is an
// `Option` of a cell.
#![tactic(auto)]

// The journal and the account agree: the account that the program `account` ends with, and the one that
// `replay` gives for the page of `journal`, are the same for every input. Theory only.
#![tactic(auto)]

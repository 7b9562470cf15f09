// The form of every reply: a number and a place, told by checks that run in order. Definitions
// only, in specs/Replies.antt: each upper room has its own answers, and lists what they say there.
#![tactic(auto)]

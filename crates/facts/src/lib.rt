// General facts on tests, numbers, lists and texts, which no room owns. Definitions and laws only, in specs/.
#![tactic(auto)]

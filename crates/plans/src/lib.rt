// Plans of a board and its clause list: definitions and laws. The calls that write them stand above.
#![tactic(auto)]

// The cases that document 01 marks * and those of E3, as one table of numbers and one theorem over the definitions of both
// ends: no code.
#![tactic(auto)]

// What two version talkers and the line between them guarantee together: definitions and theorems, no code.
#![tactic(auto)]

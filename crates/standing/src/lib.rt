// docs/RULES.md, 'The book': notices by rising number, as lists. They are defined in specs/; there is no code here.
#![tactic(auto)]

// docs/RULES.md, 'Entries' and 'The book': what the link test and the listing answer is defined in specs/; there is no code here.
#![tactic(auto)]

// docs/RULES.md, 'Entries': what the entries tag to steps, steps to tag, and normal form of a tag answer is defined in specs/; there is no code here.
#![tactic(auto)]

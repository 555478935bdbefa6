// What docs/RULES.md asks as a whole: theorems over the entries of tags, book, walks, router and printed. There is no code here.
#![tactic(auto)]

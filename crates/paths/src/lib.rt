// docs/RULES.md, 'Routes': clear paths, the first of them, and the stage that is named. There is no code here.
#![tactic(auto)]

// docs/RULES.md, 'What the user demands': runs of filings and withdrawals. There is no code here.
#![tactic(auto)]

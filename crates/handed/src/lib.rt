// The book that a host hands over as a sheet, and answers over it. There is no code here.
#![tactic(auto)]

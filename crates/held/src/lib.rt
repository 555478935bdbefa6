// A book that a host holds as a sheet, from its opening through any run of changes: definitions and theorems alone.
#![tactic(auto)]

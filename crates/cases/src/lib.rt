// No functions: 01's cases marked P, proved in specs/Cases.antt from the definitions that the public calls are promised to equal.
#![tactic(auto)]

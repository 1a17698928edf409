// Mathematics that the other crates cite: it stands in specs/, and there is no function here.
#![tactic(auto)]

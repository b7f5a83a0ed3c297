// What a check reports. specs/ has the limits, the findings, the answer's bytes and what `check` says; proofs/ what follows from it.

#![tactic(auto)]

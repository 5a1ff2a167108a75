// Laws that take what a call does to a machine to what it does to the graph: proofs only.
#![tactic(auto)]

#![tactic(auto)]

// Laws of what an accepted table holds: no code.

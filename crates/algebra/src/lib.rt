// Laws of the integers and provers over them. Everything is in specs/: there is no code to run.
#![tactic(auto)]

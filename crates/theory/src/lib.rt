// Laws about the definitions of `meaning`, in specs/. There is no code here.
#![tactic(auto)]

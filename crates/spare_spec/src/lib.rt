// Steps between cores that spare a component, which acceptance goes by without K and k: definitions, and the steps of worked rules.

#![tactic(auto)]

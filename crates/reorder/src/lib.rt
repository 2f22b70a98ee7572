// The same elements in another order: theory only, for the order of keys and the test for repeated keys.
#![tactic(auto)]

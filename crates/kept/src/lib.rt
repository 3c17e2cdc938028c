// Laws of specs/ that spoke of loops which are gone: what they say is true as before, and is proved here.
// The crate has no code, and nothing imports it.
#![tactic(auto)]

#![tactic(auto)]
// No code: that the licence's definitions over bytes mean document 02's, in specs/.

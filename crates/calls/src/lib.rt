// Calls of a machine beside its two banks, and what a flow table without a breach promises of any list of them:
// definitions and proofs, and no code.
#![tactic(auto)]

// No code: the reference model of document 01 ("The ledger machine"), lists of calls and damage, and the customer's third demand as one theorem about
// whole lists.
#![tactic(auto)]

// No code: polynomials over the field by their coefficients, and the theorem that every call of the code rests on.
#![tactic(auto)]

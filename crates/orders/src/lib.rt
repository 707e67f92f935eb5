// Field text and fill over a stream, what they promise, and two fills in either order (demand 3): definitions and theorems only, in specs/ and proofs/.
#![tactic(auto)]

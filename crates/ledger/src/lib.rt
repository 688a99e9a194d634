// The ledger of a sheet. It has no code: its definitions say what a ledger tells of the plane, and its proofs that a board which follows a ledger shows and counts just that.
#![tactic(auto)]

// The table of document 01 as one proved statement: specs/Table.antt has it, proofs/Table.antt its proof. There is no code here.
#![tactic(auto)]

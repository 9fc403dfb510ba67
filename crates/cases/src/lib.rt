// Document 01's cases: specs/Table.antt is the table, proofs/Cases.antt the statement that every row of it holds. Beside them its session, computed.
#![tactic(auto)]

// Priced timed automata: definitions stand in specs/, and theorems there and in proofs/; there is no code.
#![tactic(auto)]

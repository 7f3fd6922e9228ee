// What damage to a file its checksum finds, and exactly what it misses. The statements stand in specs/, their proofs in
// proofs/: they speak of the meaning of the sums, so there is no function.
#![tactic(auto)]

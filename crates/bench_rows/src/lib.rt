// The bench table as statements about the definitions, and the further examples. The program bench_table runs the table.
#![tactic(auto)]
